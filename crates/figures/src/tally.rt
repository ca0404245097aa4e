//! Values, counted by class.
ghost use Rattle.std.specs.Prelude.{◌≡◌, ◌≢◌, ◌<◌, ◌≤◌, ◌+◌, ◌^◌, ℕ, true, false, length, max, slice_index, IfOk};

use crate::classes::{class_at, class_of, top_of};
use std::alloc::{AllocError, Global};

/// How many values were of each class, and the greatest.
#[derive(Drop)]
pub struct Tally {
    /// How many values there were.
    pub count: u64,
    /// The greatest of them; 0 where there was none.
    pub greatest: u64,
    /// For each class up to the highest doubling so far how many values were of it; of the lowest, any count.
    pub counts: Vec<u64>,
    /// Whether memory was refused for the count of a class: some value is then in no count.
    pub refused: bool,
    ghost sized: { length counts.items ≤ 1472 },
    ghost parts: { (c : ℕ) → slice_index counts.items c ≤ count },
    ghost few: { count < 2 ^ 63 },
}

// Counts of more classes, up to the end of the doubling of one that is past them: so far no value is of these.
fn grow(counts: &mut Vec<u64>, class: usize) -> Result<(), AllocError>
    requires class { class < 1472 }
    requires past { length counts.old.items ≤ class }
    ensures long { IfOk result (λ _. class < length counts.new.items) }
    ensures most { length counts.new.items ≤ 1472 }
    ensures same { (c : ℕ) → slice_index counts.new.items c ≡ slice_index counts.old.items c }
{
    let classes = (class / 32 + 1) * 32;
    counts.reserve_exact(classes - counts.len())?;
    counts.resize(classes, 0)
}

// One more value of a class past those that are counted, or memory is refused for it.
fn count_first(counts: &mut Vec<u64>, refused: &mut bool, class: usize)
    requires class { class < 1472 }
    requires past { length counts.old.items ≤ class }
    requires few { slice_index counts.old.items class < 2 ^ 62 }
    ensures most { length counts.new.items ≤ 1472 }
    ensures here { refused.new ≡ false → slice_index counts.new.items class ≡ slice_index counts.old.items class + 1 }
    ensures upto { slice_index counts.new.items class ≤ slice_index counts.old.items class + 1 }
    ensures others { (c : ℕ) → c ≢ class → slice_index counts.new.items c ≡ slice_index counts.old.items c }
    ensures before { refused.new ≡ false → refused.old ≡ false }
{
    match grow(counts, class) {
        Ok(()) => counts[class] += 1,
        Err(_) => *refused = true,
    }
}

// The greatest so far, with one more value. It is seldom another.
#[inline(always)]
fn raise(greatest: &mut u64, value: u64)
    ensures { greatest.new ≡ max greatest.old value }
{
    if value > *greatest {
        *greatest = value;
    }
}

impl Tally {
    ghost use Rattle.std.specs.Prelude.{◌++◌, ◌∷◌, [], List, IfSome, option_to_list};
    ghost use Rattle.figures.specs.Tallied.{IsTallyOf};
    ghost use Rattle.figures.specs.Classes.{class_of as class_is, percentile, greatest_of};

    /// No values yet.
    pub fn new(alloc: Global) -> Tally
        ensures { IsTallyOf [] result }
    {
        Tally {
            count: 0,
            greatest: 0,
            counts: Vec::new(alloc),
            refused: false,
        }
    }

    /// One more value, which is 0: the counts of the classes are not read.
    #[inline(always)]
    pub fn note_zero(&mut self)
        requires few { self.old.count < 2 ^ 62 }
        ensures tally { (xs : List ℕ) → IsTallyOf xs self.old → IsTallyOf (xs ++ 0 ∷ []) self.new }
        ensures count { self.new.count ≡ self.old.count + 1 }
    {
        self.count += 1;
    }

    /// Whether there is a count of a value's class.
    #[inline(always)]
    pub fn has_count(&self, value: u64) -> bool
        requires { value < 2 ^ 50 }
        ensures yes { result ≡ true → class_is value < length self.now.counts.items }
        ensures no { result ≡ false → length self.now.counts.items ≤ class_is value }
    {
        class_of(value) < self.counts.len()
    }

    /// One more value, below 2^50, of whose class there is a count.
    #[inline(always)]
    pub fn note_known(&mut self, value: u64)
        requires value { value < 2 ^ 50 }
        requires few { self.old.count < 2 ^ 62 }
        requires known { class_is value < length self.old.counts.items }
        ensures tally { (xs : List ℕ) → IsTallyOf xs self.old → IsTallyOf (xs ++ value ∷ []) self.new }
        ensures count { self.new.count ≡ self.old.count + 1 }
    {
        let class = class_of(value);
        let counts = &mut self.counts;
        counts[class] += 1;
        self.count += 1;
        raise(&mut self.greatest, value);
    }

    // The same of a value of whose class there is none: memory may be refused for it.
    #[cold]
    #[inline(never)]
    fn note_first(&mut self, value: u64)
        requires value { value < 2 ^ 50 }
        requires few { self.old.count < 2 ^ 62 }
        requires past { length self.old.counts.items ≤ class_is value }
        ensures tally { (xs : List ℕ) → IsTallyOf xs self.old → IsTallyOf (xs ++ value ∷ []) self.new }
        ensures count { self.new.count ≡ self.old.count + 1 }
    {
        let class = class_of(value);
        self.count += 1;
        count_first(&mut self.counts, &mut self.refused, class);
        raise(&mut self.greatest, value);
    }

    /// One more value, below 2^50. Where memory is refused for its count, the tally keeps that.
    #[inline(always)]
    pub fn note(&mut self, value: u64)
        requires value { value < 2 ^ 50 }
        requires few { self.old.count < 2 ^ 62 }
        ensures tally { (xs : List ℕ) → IsTallyOf xs self.old → IsTallyOf (xs ++ value ∷ []) self.new }
        ensures count { self.new.count ≡ self.old.count + 1 }
    {
        if self.has_count(value) {
            self.note_known(value);
        } else {
            self.note_first(value);
        }
    }

    /// One more value, if there is one.
    #[inline(always)]
    pub fn note_some(&mut self, value: Option<u64>)
        requires value { IfSome value (λ v. v < 2 ^ 50) }
        requires few { self.old.count < 2 ^ 62 }
        ensures tally { (xs : List ℕ) → IsTallyOf xs self.old → IsTallyOf (xs ++ option_to_list value) self.new }
        ensures count { self.new.count ≡ self.old.count + length (option_to_list value) }
        ensures most { self.new.count ≤ self.old.count + 1 }
    {
        if let Some(value) = value {
            self.note(value);
        }
    }

    /// Whether each value is in a count: an error where memory was refused for one.
    pub fn is_whole(&self) -> Result<(), AllocError>
        ensures { IfOk result (λ _. self.now.refused ≡ false) }
    {
        if self.refused {
            Err(AllocError)
        } else {
            Ok(())
        }
    }

    /// The greatest value, where there is one.
    pub fn greatest(&self) -> Option<u64>
        ensures { (xs : List ℕ) → IsTallyOf xs self.now → result ≡ greatest_of xs }
    {
        if self.count == 0 {
            None
        } else {
            Some(self.greatest)
        }
    }

    /// A percentile: the greatest value of the class in which the nearest rank lies, at most the
    /// greatest value there was; none where there was none.
    pub fn percentile(&self, percent: u64) -> Option<u64>
        requires percent { percent ≤ 100 }
        requires few { self.now.count < 2 ^ 57 }
        requires whole { self.now.refused ≡ false }
        ensures { (xs : List ℕ) → IsTallyOf xs self.now → result ≡ percentile percent xs }
    {
        if self.count == 0 {
            return None;
        }
        let rank = (percent * self.count).div_ceil(100);
        let class = class_at(self.count, &self.counts, rank);
        Some(top_of(class).min(self.greatest))
    }
}
