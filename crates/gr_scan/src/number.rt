//! Whole numbers in binary, octal, decimal and hexadecimal.
ghost use Rattle.std.specs.Prelude.{◌≡◌, ◌≤◌, ◌<◌, ◌+◌, ◌^◌, drop, length, slice_index, IfOk, IfErr, IfSome, IfNone, Some, None};
ghost use Rattle.std.specs.List.{list_any};
ghost use Rattle.gr_scan.specs.Numbers.{is_hex_digit, digit_value, is_digit_of, are_digits, value_after, prefix_of, number_of};
ghost use Rattle.gr_scan.specs.Numbers.{is_left_out, is_hexadecimal, is_exponent};
ghost use Rattle.gr_scan.specs.Numbers as spec;
ghost use Rattle.gr_scan.specs.Scanning.{Tells, is_part};
ghost use Rattle.gr_scan.specs.Faults.{number_fault};

use crate::piece::{byte, digit};
use crate::scan::ScanError;

/// The greatest number that a token may have.
const GREATEST: u64 = 0x8000_0000_0000_0000;

fn hex_digit(b: u8) -> bool
    ensures { result ≡ is_hex_digit b }
{
    digit(b) || (b >= b'a' && b <= b'f') || (b >= b'A' && b <= b'F')
}

/// What a digit is worth.
fn units(b: u8) -> u64
    ensures { result ≡ digit_value b }
{
    if digit(b) {
        u64::from(b - b'0')
    } else if b >= b'a' {
        u64::from(b - b'a' + 10)
    } else {
        u64::from(b.saturating_sub(b'A' - 10))
    }
}

fn digit_of(base: u64, b: u8) -> bool
    ensures { result ≡ is_digit_of base b }
{
    hex_digit(b) && units(b) < base
}

/// The base of a number, and the length of the prefix that tells it.
fn prefix(bytes: &[u8]) -> (u64, usize)
    requires { 0 < length bytes.now }
    ensures prefix { result ≡ prefix_of bytes.now }
    ensures within { result.1 ≤ length bytes.now }
{
    if byte(bytes, 0) != b'0' || bytes.len() == 1 {
        return (10, 0);
    }
    match byte(bytes, 1) {
        b'b' | b'B' => (2, 2),
        b'o' | b'O' => (8, 2),
        b'x' | b'X' => (16, 2),
        _ => (8, 1),
    }
}

/// Whether a digit stands at this place, or a `_` before a digit.
fn part(base: u64, digits: &[u8], at: usize) -> bool
    requires { at < length digits.now }
    ensures { result ≡ is_part base digits.now at }
{
    digit_of(base, digits[at]) || (digits[at] == b'_' && digit_of(base, byte(digits, at + 1)))
}

fn all_digits(base: u64, digits: &[u8]) -> bool
    ensures { result ≡ are_digits base digits.now }
{
    for i in 0..digits.len() {
        if !part(base, digits, i) {
            return false;
        }
    }
    true
}

/// What a number is worth with one more digit; `None` where that is over 2^63.
fn with_digit(base: u64, value: u64, b: u8) -> Option<u64>
    requires { value ≤ 2 ^ 63 }
    ensures some { IfSome result (λ n. (n ≡ spec.with_digit base value b) × (n ≤ 2 ^ 63)) }
    ensures none { IfNone result (2 ^ 63 < spec.with_digit base value b) }
{
    if b == b'_' {
        return Some(value);
    }
    let next = value.checked_mul(base)?.checked_add(units(b))?;
    if next > GREATEST {
        return None;
    }
    Some(next)
}

/// What digits are worth; `None` where that is over 2^63.
fn value(base: u64, digits: &[u8]) -> Option<u64>
    requires { 0 < base }
    ensures some { IfSome result (λ n. (n ≡ value_after base 0 digits.now) × (n ≤ 2 ^ 63)) }
    ensures none { IfNone result (2 ^ 63 < value_after base 0 digits.now) }
{
    let mut value: u64 = 0;
    for b in digits {
        value = with_digit(base, value, *b)?;
    }
    Some(value)
}

/// Whether a number is a hexadecimal, by its prefix.
fn hexadecimal(bytes: &[u8]) -> bool
    ensures { result ≡ is_hexadecimal bytes.now }
{
    byte(bytes, 0) == b'0' && (byte(bytes, 1) == b'x' || byte(bytes, 1) == b'X')
}

/// Whether a byte is the letter of an exponent.
fn exponent(hexadecimal: bool, b: u8) -> bool
    ensures { result ≡ is_exponent hexadecimal b }
{
    if hexadecimal {
        b == b'p' || b == b'P'
    } else {
        b == b'e' || b == b'E'
    }
}

fn has_exponent(hexadecimal: bool, bytes: &[u8]) -> bool
    ensures { result ≡ list_any (is_exponent hexadecimal) bytes.now }
{
    bytes.iter().any(|b| exponent(hexadecimal, *b))
}

/// Whether a run that is no number is of a kind that is left out. Such a run has an exponent, or ends in the `i` of an
/// imaginary number.
fn left_out(bytes: &[u8]) -> bool
    requires { 0 < length bytes.now }
    ensures { result ≡ is_left_out bytes.now }
{
    byte(bytes, bytes.len() - 1) == b'i' || has_exponent(hexadecimal(bytes), bytes)
}

/// The number that a run beginning with a digit spells, at most 2^63. A fault gives `at` as its place.
pub fn read(bytes: &[u8], at: usize) -> Result<u64, ScanError>
    requires { 0 < length bytes.now }
    ensures ok { IfOk result (λ n. number_of bytes.now ≡ Some n) }
    ensures err { IfErr result (λ e. Tells e (number_of bytes.now ≡ None)) }
    ensures fault { IfErr result (λ e. number_fault at bytes.now ≡ Some e) }
{
    let (base, size) = prefix(bytes);
    let (_, digits) = bytes.split_at(size);
    if !digits.is_empty() && all_digits(base, digits) {
        return match value(base, digits) {
            Some(n) => Ok(n),
            None => Err(ScanError::TooGreat(at)),
        };
    }
    if left_out(bytes) {
        return Err(ScanError::LeftOut(at));
    }
    Err(ScanError::Malformed(at))
}
