//! Unsigned decimal numbers, with or without leading zeros.
//!
//! `specs/Decimal.antt` defines the number that digits spell.

ghost use Rattle.std.specs.Prelude.{◌≡◌, ◌^◌, ◌<◌, ◌≤◌, length};
ghost use Rattle.std.specs.List.{list_all};
ghost use Rattle.std.specs.Char.{is_ascii_digit};
ghost use Rattle.jaeger_model.specs.Decimal.{digit, is_digits, number_of};

/// Returns the value of a decimal digit, and 0 for any other byte.
fn digit_of(byte: u8) -> u8
    ensures value { result ≡ digit byte }
    ensures small { result < 10 }
{
    match byte {
        b'0'..=b'9' => byte - b'0',
        _ => 0,
    }
}

fn are_digits(text: &[u8]) -> bool
    ensures { result ≡ list_all is_ascii_digit text.now }
{
    text.iter().all(|byte| byte.is_ascii_digit())
}

/// Returns whether the text is 1 to `most` decimal digits and nothing else.
pub fn is_number(text: &[u8], most: usize) -> bool
    ensures { result ≡ is_digits most text.now }
{
    !text.is_empty() && text.len() <= most && are_digits(text)
}

/// Returns the number that at most 19 decimal digits spell. The empty text is 0.
pub fn value_of(digits: &[u8]) -> u64
    requires { length digits.now ≤ 19 }
    ensures value { result ≡ number_of digits.now }
    ensures small { result < 10 ^ length digits.now }
{
    let mut number: u64 = 0;
    for byte in digits {
        number = number * 10 + u64::from(digit_of(*byte));
    }
    number
}
