//! Upper bounds of blocks of starts.

ghost use Rattle.std.specs.Prelude.{◌≡◌, ◌+◌, ◌<◌, ◌≤◌, ◌==◌, ℕ, pos, int_lt, false, length, get_or, vec_capacity, if◌then◌else◌};

/// The number of starts in a block.
pub(crate) const BLOCK: usize = 256;

/// Raises the bound of a block to a start, if it is below. The block is one of those with a bound, or the next one.
pub(crate) fn raise(bounds: &mut Vec<i64>, block: usize, start: i64)
    requires known { block ≤ length bounds.old.items }
    requires room { length bounds.old.items < vec_capacity bounds.old }
    ensures capacity { vec_capacity bounds.new ≡ vec_capacity bounds.old }
    ensures count { length bounds.new.items ≡
        (if block == length bounds.old.items then length bounds.old.items + 1
        else length bounds.old.items) }
    ensures own { int_lt (get_or bounds.new.items block (pos 0)) start ≡ false }
    ensures none_falls { (k : ℕ) → k < length bounds.old.items →
        int_lt (get_or bounds.new.items k (pos 0)) (get_or bounds.old.items k (pos 0)) ≡ false }
{
    if block == bounds.len() {
        bounds.push_reserved(start);
    } else if bounds[block] < start {
        bounds[block] = start;
    }
}

/// Returns whether the bound or start at an index is later than a time.
pub(crate) fn is_later(times: &[i64], at: usize, time: i64) -> bool
    requires { at < length times.now }
    ensures { result ≡ int_lt time (get_or times.now at (pos 0)) }
{
    times[at] > time
}
