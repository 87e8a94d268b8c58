//! Facts about the calls on a store that threads share. Each function does nothing, and its contract is the fact.

ghost use Rattle.std.specs.Prelude.{List, All};
ghost use Rattle.trace_model.specs.declared.limits.Limits.{Limits as LimitsValue};
ghost use Rattle.store_laws.specs.SharedCalls.{Call, IsTrueCall, AllComparable, HaveOneHistory};

/// One history explains all calls. Take any number of calls that admit, read, learn or settle under one store name, on
/// any threads. Each call has a list: a pass the one that it entered (`Pass::history`), an acknowledgement that of its
/// receipt (`Receipt::history`), and a refusal its own (`Denial::list`). Every list is legal (`HistoryPrefix::len`),
/// and of any two lists, one is a prefix of the other (`HistoryPrefix::is_prefix_of`). The contracts of the calls say
/// what is true of each list.
///
/// Then all these lists are prefixes of one legal list. Each answer is the plain store's for a prefix of it. Each
/// acknowledged entry is in it at the place that was returned, and nowhere else. Each refusal by `JournalFull`, `Stale`
/// or `Conflict` is true of a prefix of it.
pub fn calls_have_one_history()
    ensures { (limits : LimitsValue) (calls : List Call) → All (IsTrueCall limits) calls →
        AllComparable calls → HaveOneHistory limits calls }
{}
