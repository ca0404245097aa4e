//! Texts that are written from their beginning to their end. Each function writes from `at` on, and answers
//! where what it wrote ends. Bytes behind that may be written too, and are to be written over.
ghost use Rattle.std.specs.Prelude.{◌≡◌, ◌+◌, ◌<◌, ◌≤◌, ◌++◌, ◌^◌, length, take, decimal};

use crate::digits::{write_first, write_long, write_nine, write_six};

/// The least number of ten digits.
pub(crate) const LONG: u64 = 1_000_000_000;

/// Writes a text.
#[inline(always)]
pub(crate) fn write_text<const N: usize>(bytes: &mut [u8], at: usize, text: &[u8; N]) -> usize
    requires room { at + N ≤ length bytes.old }
    ensures written { take result bytes.new ≡ take at bytes.old ++ text.now }
    ensures end { result ≡ at + N }
{
    let end = at + N;
    copy_array(&mut bytes[at..end], text);
    end
}

/// Copies an array into a slice of its length. Unlike `copy_from_slice` it has no test at run time.
#[inline(always)]
pub(crate) fn copy_array<const N: usize>(place: &mut [u8], text: &[u8; N])
    requires { length place.old ≡ N }
    ensures { place.new ≡ text.now }
{
    if let Some(array) = place.as_mut_array::<N>() {
        *array = *text;
    }
}

/// Writes a number's decimal digits.
#[inline(always)]
pub(crate) fn write_number(bytes: &mut [u8], at: usize, n: u64) -> usize
    requires room { at + 21 ≤ length bytes.old }
    ensures written { take result bytes.new ≡ take at bytes.old ++ decimal n }
    ensures above { at ≤ result }
    ensures short { result ≤ at + 20 }
{
    if n < LONG {
        return write_nine(bytes, at, n as u32);
    }
    write_long(bytes, at, n)
}

/// The same for a number of 16 bits, which is shorter.
#[inline(always)]
pub(crate) fn write_small(bytes: &mut [u8], at: usize, n: u16) -> usize
    requires room { at + 8 ≤ length bytes.old }
    ensures written { take result bytes.new ≡ take at bytes.old ++ decimal n }
    ensures above { at ≤ result }
    ensures short { result ≤ at + 5 }
{
    if n < 1000 {
        return write_first(bytes, at, u32::from(n));
    }
    write_six(bytes, at, u32::from(n))
}

/// Writes a name and a number.
#[inline(always)]
pub(crate) fn write_field<const N: usize>(
    bytes: &mut [u8],
    at: usize,
    name: &[u8; N],
    n: u64,
) -> usize
    requires room { at + N + 21 ≤ length bytes.old }
    ensures written { take result bytes.new ≡ take at bytes.old ++ (name.now ++ decimal n) }
    ensures above { at ≤ result }
    ensures short { result ≤ at + N + 20 }
{
    let at = write_text(bytes, at, name);
    write_number(bytes, at, n)
}

/// Writes a name and the number of a flow or a link.
#[inline(always)]
pub(crate) fn write_named<const N: usize>(
    bytes: &mut [u8],
    at: usize,
    name: &[u8; N],
    n: u16,
) -> usize
    requires room { at + N + 8 ≤ length bytes.old }
    ensures written { take result bytes.new ≡ take at bytes.old ++ (name.now ++ decimal n) }
    ensures above { at ≤ result }
    ensures short { result ≤ at + N + 5 }
{
    let at = write_text(bytes, at, name);
    write_small(bytes, at, n)
}
