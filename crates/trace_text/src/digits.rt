//! A number's decimal digits, three at a time, from the first to the last. As in the rest of a line each
//! function writes from `at` on and answers where what it wrote ends; bytes behind that may be written too.
ghost use Rattle.std.specs.Prelude.{◌≡◌, ◌+◌, ◌/◌, ◌%◌, ◌<◌, ◌≤◌, ◌++◌, ◌^◌, length, take, decimal};
ghost use Rattle.trace_text.specs.Digits.{three_digits};

use crate::forward::{LONG, write_text};
use crate::groups::{FIRSTS, GROUPS};

/// The code of the digit zero.
const ZERO: usize = 48;

/// Writes the digits of a number of ten or more.
#[inline(never)]
pub(crate) fn write_long(bytes: &mut [u8], at: usize, n: u64) -> usize
    requires long { 10 ^ 9 ≤ n }
    requires room { at + length (decimal n) + 1 ≤ length bytes.old }
    ensures written { take result bytes.new ≡ take at bytes.old ++ decimal n }
    ensures end { result ≡ at + length (decimal n) }
{
    let high = n / LONG;
    let at = write_eighteen(bytes, at, high);
    write_all_nine(bytes, at, (n - high * LONG) as u32)
}

/// Writes the digits of a number of at most 18.
#[inline(always)]
fn write_eighteen(bytes: &mut [u8], at: usize, n: u64) -> usize
    requires number { n < 10 ^ 18 }
    requires room { at + length (decimal n) + 3 ≤ length bytes.old }
    ensures written { take result bytes.new ≡ take at bytes.old ++ decimal n }
    ensures end { result ≡ at + length (decimal n) }
{
    if n < LONG {
        return write_nine(bytes, at, n as u32);
    }
    let high = n / LONG;
    let at = write_nine(bytes, at, high as u32);
    write_all_nine(bytes, at, (n - high * LONG) as u32)
}

/// Writes nine digits, zeros before the number's own among them.
#[inline(always)]
fn write_all_nine(bytes: &mut [u8], at: usize, n: u32) -> usize
    requires number { n < 10 ^ 9 }
    requires room { at + 10 ≤ length bytes.old }
    ensures written { take result bytes.new ≡ take at bytes.old ++ (three_digits (n / 1000 / 1000)
        ++ three_digits (n / 1000 % 1000) ++ three_digits (n % 1000)) }
    ensures end { result ≡ at + 9 }
{
    let (thousands, ones) = split(n);
    let (millions, thousands) = split(thousands);
    let at = write_group(bytes, at, millions);
    let at = write_group(bytes, at, thousands);
    write_group(bytes, at, ones)
}

/// Writes the digits of a number of at most nine.
#[inline(always)]
pub(crate) fn write_nine(bytes: &mut [u8], at: usize, n: u32) -> usize
    requires number { n < 10 ^ 9 }
    requires room { at + length (decimal n) + 3 ≤ length bytes.old }
    ensures written { take result bytes.new ≡ take at bytes.old ++ decimal n }
    ensures end { result ≡ at + length (decimal n) }
{
    if n < 1_000_000 {
        return write_six(bytes, at, n);
    }
    let (thousands, ones) = split(n);
    let (millions, thousands) = split(thousands);
    let at = write_first(bytes, at, millions);
    let at = write_group(bytes, at, thousands);
    write_group(bytes, at, ones)
}

/// Writes the digits of a number of at most six.
#[inline(always)]
pub(crate) fn write_six(bytes: &mut [u8], at: usize, n: u32) -> usize
    requires number { n < 10 ^ 6 }
    requires room { at + length (decimal n) + 3 ≤ length bytes.old }
    ensures written { take result bytes.new ≡ take at bytes.old ++ decimal n }
    ensures end { result ≡ at + length (decimal n) }
{
    if n < 1000 {
        return write_first(bytes, at, n);
    }
    let (thousands, ones) = split(n);
    let at = write_first(bytes, at, thousands);
    write_group(bytes, at, ones)
}

/// How many thousands a number has, and what is left. A product costs less here than `%`.
#[inline(always)]
fn split(n: u32) -> (u32, u32)
    ensures thousands { result.0 ≡ n / 1000 }
    ensures ones { result.1 ≡ n % 1000 }
{
    let thousands = n / 1000;
    (thousands, n - thousands * 1000)
}

/// Writes the digits of a number below 1,000, whose row of the table tells how many they are.
#[inline(always)]
pub(crate) fn write_first(bytes: &mut [u8], at: usize, n: u32) -> usize
    requires number { n < 1000 }
    requires room { at + 4 ≤ length bytes.old }
    ensures written { take result bytes.new ≡ take at bytes.old ++ decimal n }
    ensures end { result ≡ at + length (decimal n) }
{
    let row = FIRSTS[n as usize];
    write_text(bytes, at, &row);
    at + usize::from(row[3]) - ZERO
}

/// Writes six digits, zeros before the number's own among them.
#[inline(always)]
pub(crate) fn write_two_groups(bytes: &mut [u8], at: usize, n: u32) -> usize
    requires number { n < 10 ^ 6 }
    requires room { at + 7 ≤ length bytes.old }
    ensures written { take result bytes.new ≡ take at bytes.old
        ++ (three_digits (n / 1000) ++ three_digits (n % 1000)) }
    ensures end { result ≡ at + 6 }
{
    let (thousands, ones) = split(n);
    let at = write_group(bytes, at, thousands);
    write_group(bytes, at, ones)
}

/// Writes three digits.
#[inline(always)]
pub(crate) fn write_group(bytes: &mut [u8], at: usize, n: u32) -> usize
    requires number { n < 1000 }
    requires room { at + 4 ≤ length bytes.old }
    ensures written { take result bytes.new ≡ take at bytes.old ++ three_digits n }
    ensures end { result ≡ at + 3 }
{
    write_text(bytes, at, &GROUPS[n as usize]) - 1
}
