//! A rising list of numbers whose front is taken off without a move of the rest.
ghost use Rattle.std.specs.Prelude.{◌≡◌, ℕ, ◌+◌, ◌*◌, ◌<◌, ◌≤◌, ◌≢◌, length, drop, insert, slice_index, All, IfOk, IfErr, OnOk, OnErr, Some, slice_get, []};
ghost use Rattle.std.specs.List.Sorted.{IsNonDecreasing};
ghost use Rattle.reno_receiver.specs.Place.{IsPlaceOf};

use std::alloc::{AllocError, Global};
use std::marker::Model;

/// The numbers of the segments that came out of order.
#[derive(Drop)]
pub struct Held {
    numbers: Vec<u64>,
    taken: usize,
}

impl Model for Held {
    ghost use Rattle.std.specs.Prelude.{ℕ, ◌≤◌, List, drop, vec_len};

    ghost Value = { List ℕ };

    ghost view = { λ h. drop h.taken h.numbers.items };

    ghost invariant = { λ h. h.taken ≤ vec_len h.numbers };
}

impl Held {
    /// No numbers.
    pub fn new(alloc: Global) -> Held
        ensures { result ≡ [] }
    {
        Held {
            numbers: Vec::new(alloc),
            taken: 0,
        }
    }

    /// The numbers.
    pub fn as_slice(&self) -> &[u64]
        ensures { result.now ≡ self.now }
    {
        &self.numbers.as_slice()[self.taken..]
    }

    /// Puts a number at a place, before those that stand there and later.
    pub fn insert(&mut self, place: usize, number: u64) -> Result<(), AllocError>
        requires { place ≤ length self.old }
        ensures ok { OnOk result (self.new ≡ insert self.old place number) }
        ensures err { OnErr result (self.new ≡ self.old) }
    {
        self.numbers.insert(self.taken + place, number)?;
        Ok(())
    }

    /// Takes off so many numbers at the front. What is left moves only once no more is left than
    /// was taken off since it moved last.
    pub fn take_front(&mut self, count: usize)
        requires { count ≤ length self.old }
        ensures { self.new ≡ drop count self.old }
    {
        // Mostly nothing is held.
        if count == 0 {
            return;
        }
        self.taken += count;
        if self.numbers.len() - self.taken <= self.taken {
            self.close_up();
        }
    }

    /// Moves what is left to the front of its memory.
    fn close_up(&mut self)
        ensures { self.new ≡ self.old }
    {
        let left = self.numbers.len() - self.taken;
        self.numbers.copy_within(self.taken.., 0);
        self.numbers.truncate(left);
        self.taken = 0;
    }

    /// The same numbers in memory of their own.
    pub fn copy(&self) -> Result<Held, AllocError>
        ensures { IfOk result (λ copy. copy ≡ self.now) }
    {
        let alloc = *self.numbers.allocator();
        let numbers = Vec::from_slice(alloc, self.as_slice())?;
        Ok(Held { numbers, taken: 0 })
    }
}

/// The index of a number among rising ones, or else its place.
pub fn find(numbers: &[u64], number: u64) -> Result<usize, usize>
    requires { IsNonDecreasing numbers.now }
    ensures found { IfOk result (λ at. slice_get numbers.now at ≡ Some number) }
    ensures missing { IfErr result (IsPlaceOf number numbers.now) }
{
    match numbers.last() {
        // What comes after a loss comes in order.
        Some(last) if *last < number => Err(numbers.len()),
        _ => numbers.binary_search(&number),
    }
}

/// How many numbers at the front follow one another a segment apart, `first` being the first.
pub fn run_length(numbers: &[u64], first: u64, mss: u64) -> usize
    requires mss_greatest { mss ≤ 9000 }
    requires first_greatest { first ≤ 10000000000000 }
    requires greatest { All (λ number. number ≤ 9000000000000) numbers.now }
    ensures within { result ≤ length numbers.now }
    ensures run { (k : ℕ) → k < result → slice_index numbers.now k ≡ first + k * mss }
    ensures ended { result < length numbers.now → slice_index numbers.now result ≢ first + result * mss }
{
    let mut expected = first;
    for (count, number) in numbers.iter().enumerate() {
        if *number != expected {
            return count;
        }
        expected += mss;
    }
    numbers.len()
}
