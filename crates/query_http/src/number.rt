ghost use Rattle.std.specs.Prelude.{◌≡◌, ◌^◌, ◌≤◌, length, position, option_map, IfSome};
ghost use Rattle.query_http.specs.Queries.{time_of};
ghost use Rattle.std.specs.List.{position_or_len};
ghost use Rattle.query_http.specs.Numbers.{is_other, read_number, unit_of, front_digits, behind_digits, fraction, microseconds, read_duration};

use jaeger_model::decimal::{is_number, value_of};

/// Parses a number of 1 to 19 digits, at most 9223372036854775807.
#[tactic(auto, unfolding(crate::specs::Numbers::read_number))]
pub(crate) fn read_number(text: &str) -> Option<i64>
    ensures { result ≡ time_of (read_number text.now) }
{
    let digits = text.as_bytes();
    if !is_number(digits, 19) {
        return None;
    }
    i64::try_from(value_of(digits)).ok()
}

/// Returns the microseconds of a unit.
fn unit_of(text: &[u8]) -> Option<u64>
    ensures value { result ≡ unit_of text.now }
    ensures small { IfSome result (λ unit. unit ≤ 3600000000) }
{
    match text {
        b"us" => Some(1),
        b"ms" => Some(1000),
        b"s" => Some(1_000_000),
        b"m" => Some(60_000_000),
        b"h" => Some(3_600_000_000),
        _ => None,
    }
}

/// Returns the index of the first byte that is no digit.
fn first_non_digit(text: &[u8]) -> Option<usize>
    ensures { result ≡ position is_other text.now }
{
    text.iter().position(|c| !c.is_ascii_digit())
}

/// Returns the number of leading digits.
#[tactic(auto, using(crate::proofs::Digits::position_or_end))]
fn digit_count(text: &[u8]) -> usize
    ensures count { result ≡ position_or_len is_other text.now }
    ensures within { result ≤ length text.now }
{
    first_non_digit(text).unwrap_or(text.len())
}

/// Splits a text after its leading digits.
fn split_digits(text: &[u8]) -> (&[u8], &[u8])
    ensures front { result.0.now ≡ front_digits text.now }
    ensures behind { result.1.now ≡ behind_digits text.now }
{
    text.split_at(digit_count(text))
}

/// Returns the digits after a leading point and the text after them; no digits if there is no point.
fn split_fraction(text: &[u8]) -> Option<(&[u8], &[u8])>
    ensures value { option_map (λ p. (p.0.now, p.1.now)) result ≡ fraction text.now }
    ensures short { IfSome result (λ p. length p.0.now ≤ 9) }
{
    match text {
        [b'.', rest @ ..] => {
            let (digits, unit) = split_digits(rest);
            if is_number(digits, 9) {
                Some((digits, unit))
            } else {
                None
            }
        }
        _ => Some((&[], text)),
    }
}

fn power_of_ten(exponent: usize) -> u128
    requires { exponent ≤ 9 }
    ensures { result ≡ 10 ^ exponent }
{
    10u128.pow(exponent as u32)
}

/// Returns the microseconds of a decimal number, given as the digits before and after its point, in a unit.
fn scaled(whole: &[u8], part: &[u8], unit: u64) -> u128
    requires whole { length whole.now ≤ 19 }
    requires part { length part.now ≤ 9 }
    requires unit { unit ≤ 3600000000 }
    ensures { result ≡ microseconds whole.now part.now unit }
{
    let ten = power_of_ten(part.len());
    (u128::from(value_of(whole)) * ten + u128::from(value_of(part))) * u128::from(unit) / ten
}

/// Parses a duration into microseconds, rounded down: 1 to 19 digits, optionally a point and 1 to 9
/// digits, then `us`, `ms`, `s`, `m` or `h`; at most 9223372036854775807 microseconds.
#[tactic(auto, unfolding(crate::specs::Numbers::read_duration))]
pub(crate) fn read_duration(text: &str) -> Option<i64>
    ensures { result ≡ time_of (read_duration text.now) }
{
    let (whole, rest) = split_digits(text.as_bytes());
    if !is_number(whole, 19) {
        return None;
    }
    let (part, unit) = split_fraction(rest)?;
    let unit = unit_of(unit)?;
    i64::try_from(scaled(whole, part, unit)).ok()
}
