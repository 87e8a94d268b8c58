//! Tests whether a text needs no escape in a JSON string, sixteen bytes at a time.
ghost use Rattle.std.specs.Prelude.{◌≡◌, ◌+◌, ◌≤◌, length};
ghost use Rattle.std.specs.Bool.{OnTrue};
ghost use Rattle.json.specs.Print.{escape};
ghost use Rattle.json.specs.Written.{PlainBetween};

use std::simd::prelude::*;

/// Returns whether none of the `N` bytes from `at` on needs an escape.
fn are_plain_at<const N: usize>(text: &[u8], at: usize) -> bool
    requires lanes { N ≤ 64 }
    requires inside { at + N ≤ length text.now }
    ensures { OnTrue result (PlainBetween text.now at (at + N)) }
{
    let bytes = Simd::<u8, N>::from_slice(&text[at..]);
    (bytes.simd_eq(Simd::splat(b'"'))
        | bytes.simd_eq(Simd::splat(b'\\'))
        | bytes.simd_lt(Simd::splat(0x20))).to_bitmask()
        == 0
}

/// Returns whether no byte needs an escape, by testing them one by one.
fn are_plain_few(text: &[u8]) -> bool
    ensures { OnTrue result (PlainBetween text.now 0 (length text.now)) }
{
    for &byte in text {
        if byte == b'"' || byte == b'\\' || byte < 0x20 {
            return false;
        }
    }
    true
}

/// Returns whether none of at least sixteen bytes needs an escape. The last group of sixteen may overlap the one before
/// it.
fn are_plain_many(text: &[u8]) -> bool
    requires { 16 ≤ length text.now }
    ensures { OnTrue result (PlainBetween text.now 0 (length text.now)) }
{
    let mut at = 0;
    while text.len() - at > 16 {
        if !are_plain_at::<16>(text, at) {
            return false;
        }
        at += 16;
    }
    are_plain_at::<16>(text, text.len() - 16)
}

/// Returns whether none of at most sixteen bytes needs an escape. Two groups of eight or of four may overlap.
fn are_plain(text: &[u8]) -> bool
    requires { length text.now ≤ 16 }
    ensures { OnTrue result (PlainBetween text.now 0 (length text.now)) }
{
    if text.len() >= 8 {
        are_plain_at::<8>(text, 0) && are_plain_at::<8>(text, text.len() - 8)
    } else if text.len() >= 4 {
        are_plain_at::<4>(text, 0) && are_plain_at::<4>(text, text.len() - 4)
    } else {
        are_plain_few(text)
    }
}

/// Returns whether the text needs no escape in a JSON string.
pub(crate) fn needs_no_escape(text: &[u8]) -> bool
    ensures { OnTrue result (escape text.now ≡ text.now) }
{
    if text.len() < 16 {
        are_plain(text)
    } else {
        are_plain_many(text)
    }
}
