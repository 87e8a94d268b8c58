//! What follows from the keeper's clauses. Each function does nothing, and its contract is the fact.

ghost use Rattle.std.specs.Prelude.{◌≡◌, ℕ, List, Result, Some};
ghost use mathlib.Core.List.{IsPrefix};
ghost use Rattle.trace_model.specs.declared.entry.Entry.{Entry};
ghost use Rattle.trace_model.specs.declared.limits.Limits.{Limits};
ghost use Rattle.trace_model.specs.declared.refusal.Refusal.{Refusal};
ghost use Rattle.trace_model.specs.declared.query.Query.{Query};
ghost use Rattle.trace_model.specs.declared.answer.Answer.{Answer};
ghost use Rattle.trace_model.specs.Answers.{answer};
ghost use Rattle.trace_model.specs.Histories.{IsLegal};
ghost use Rattle.trace_model.specs.Refusals.{refusal_of};
ghost use Rattle.read_side.specs.Receipts.{AnsweredAt};
ghost use Rattle.read_side.specs.OneHistory.{IsAnswered, IsAcknowledged, IsRefused};
ghost use Rattle.read_side.specs.Keepers.{Lists, Admissions};

/// Whatever entries a keeper is to admit, and whatever it answers, the published list only grows at its end. A
/// receipt's list is the published one at the time the receipt is made, so it is a prefix of every list that is
/// published later.
pub fn a_receipts_list_is_a_prefix_of_later_ones()
    ensures { (limits : Limits) (old new : Lists) (calls : List (Entry × Result ℕ Refusal)) →
        Admissions limits old calls new → IsPrefix old.published new.published }
{}

/// One history explains all calls. Of whatever was admitted, read, learnt and settled under one store name, by any
/// threads, each call named a list: a pass the one that it had entered, a receipt and a refusal their own. The
/// [`HistoryPrefix`](crate::HistoryPrefix)es of these lists have a longest one, [`longest`](crate::longest), which
/// is legal and of which each is a prefix, as it is of all that the keeper has accepted
/// ([`Keeper::includes`](crate::Keeper::includes)). Each answer is the plain store's for a prefix of that list, each
/// acknowledged entry is in it at the named place and nowhere else, and each refusal by `JournalFull`, `Stale` or
/// `Conflict` is true of a prefix.
pub fn all_calls_have_one_history()
    ensures answers { (limits : Limits) (list whole : List Entry) (q : Query) (a : Answer) →
        IsPrefix list whole → a ≡ answer limits list q → IsAnswered limits whole q a }
    ensures acknowledged { (limits : Limits) (list whole : List Entry) (place : ℕ) (e : Entry) →
        IsLegal limits whole → IsPrefix list whole → AnsweredAt list place e →
        IsAcknowledged whole place e }
    ensures refused { (limits : Limits) (list whole : List Entry) (e : Entry) (why : Refusal) →
        IsPrefix list whole → refusal_of limits list e ≡ Some why → IsRefused limits whole e why }
{}
