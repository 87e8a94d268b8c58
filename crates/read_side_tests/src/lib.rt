//! Tests of a store that threads share: `read_side`, the two copies, their passes and receipts, also beside the stepped
//! machine of `schedule_core`.
//!
//! * `rows`: worked rows, one call after another.
//! * `sent_again`: a batch that is resent.
//! * `prefixes`: the lists that calls name, compared.
//! * `machine`: the same steps on the stepped machine and on the two copies.
//! * `holding`: a list that is held while another thread writes; a receipt that is learnt late.
//! * `concurrent_reads`: three threads that read while another one writes, with every kind of query, each answer compared
//!   with the plain store's.
//! * `fixture`: a store that is opened for a row.
//! * `entries`: the entries that they submit.
//! * `answers`: the text of an answer.
#![tactic(auto)]

#[cfg(test)]
mod tests;
