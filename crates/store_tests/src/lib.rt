//! Tests of the store as the plain store of its entries, and of what computes its answers. Its worked rows are in
//! `cases/`.
//!
//! * `limits`: the text of a refusal.
//! * `stores`: `span_store`, queried as the plain store of its entries, and the memory for it.
//! * `large`: a store of many entries.
//! * `adjusters`: `trace_adjust`, with a long chain.
//! * `entries`, `queries`, `replays`, `shown`: entries and queries for these, the answers of stores, and what an answer
//!   shows.
//! * `sameness`: whether a store answers as the plain store.
#![tactic(auto)]

#[cfg(test)]
mod tests;
