//! The last numbers of seats.

ghost use Rattle.std.specs.Prelude.{◌≡◌, ◌==◌, ◌≤◌, ℕ, get_or, vec_capacity, if◌then◌else◌};

/// The number of seats that there can be.
pub(crate) const SEAT_NUMBERS: usize = 65_536;

/// Sets the last number of a seat. Each seat without one has the number 0.
pub(crate) fn set_last_number(numbers: &mut Vec<u64>, seat: u16, number: u64)
    requires { SEAT_NUMBERS ≤ vec_capacity numbers.old }
    ensures numbers { (s : ℕ) → get_or numbers.new.items s 0 ≡
        (if seat == s then number else get_or numbers.old.items s 0) }
    ensures capacity { vec_capacity numbers.new ≡ vec_capacity numbers.old }
{
    let at = usize::from(seat);
    for _seat in numbers.len()..at + 1 {
        numbers.push_reserved(0);
    }
    numbers[at] = number;
}
