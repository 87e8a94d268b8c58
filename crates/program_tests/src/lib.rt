//! Tests of the program and of its server that no case can be: sessions over a shared store write the same bytes as over
//! a store with one owner, workers serve at the same time and see each other's batches, and a client that stalls,
//! disconnects or breaks the rules doesn't affect others; devices that fail, an input that waits for the replies, and a
//! port that can't be used. `cases/` tests what the commands write. What is proved for every input is in the contracts
//! of the functions tested.
//!
//! * `over_live`: sessions over a shared store, beside those over a store with one owner.
//! * `sockets`: a server and its clients over real sockets of this machine.
//! * `lines`: the lines about a store that no client of the other tests brings about.
//! * `server`: a server in a thread of its own. `clients`: its clients. `requests`: what they send.
//! * `first_waits`: an observer that makes the first call wait for another one.
//! * `devices`: devices that fail. `turns`: an input that waits for the replies to its lines.
//! * `serving`: `serve` on an address that can't be used.
//! * `runs`: runs of the program over memory. `machine`: the machine that these need.
#![tactic(auto)]

#[cfg(test)]
mod tests;
