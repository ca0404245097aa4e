//! The parts of a breakpoint that are still to be read, as it is typed at a prompt.
ghost use Rattle.std.specs.Prelude.{◌≡◌, ◌≤◌, ◌^◌, ◌-◌, ◌||◌, true, false, [], ◌∷◌, MatchOption, MatchResult, is_none};
ghost use Rattle.prompt_words.specs.Input.{words_in};
ghost use Rattle.prompt_words.specs.Signs.{parts_in, sign_named};
ghost use Rattle.prompt_words.specs.Namings.{part_meant};
ghost use Rattle.prompt_words.specs.Grammar.{number_below, kind_named};
ghost use Rattle.prompt_words.specs.ValueNames.{value_named, phase_named, bound_named};
ghost use Rattle.prompt_words.specs.Parts.{ReadsAs, behind, value_or, one_part, within_in, test_in, changing, flow_value_in};

use crate::grammar::{kind_named, number_below};
use crate::naming::{Naming, PartSort};
use crate::refusal::{Expected, Misnamed, Refusal, Refused};
use crate::signs::{next_part, sign_named};
use crate::value_names::{bound_named, is_phase, is_time, may_change, phase_named, value_named};
use breakpoints::{Bound, EventKind, Phase, Sign, Test, Value};
use std::marker::Model;

/// The parts that are still to be read, and what was wrong of those before.
#[derive(Drop)]
pub(crate) struct Parts<'a> {
    /// What is left of a word.
    word: &'a [u8],
    /// What stands behind that word.
    line: &'a [u8],
    /// What was expected in the place of the first part that was wrong.
    wrong: Option<Expected>,
    /// The first name of a part of a scenario that is of another sort than was asked for.
    misnamed: Option<Misnamed<'a>>,
}

/// The value that a word names, where a breakpoint can ask that it changes.
fn changing(word: &[u8]) -> Option<Value>
    ensures { result ≡ changing (value_named word.now) }
{
    let value = value_named(word)?;
    if may_change(value) { Some(value) } else { None }
}

impl<'a> Model for Parts<'a> {
    ghost use Rattle.std.specs.Prelude.{is_some};
    ghost use Rattle.prompt_words.specs.Input.{words_in};
    ghost use Rattle.prompt_words.specs.Parts.{Left};
    ghost use Rattle.prompt_words.specs.Signs.{parts_from};

    ghost Value = { Left };

    ghost view = { λ p. record { parts = parts_from p.word.now (words_in p.line.now); is_wrong = is_some p.wrong } };
}

impl<'a> Parts<'a> {
    /// All parts of a line.
    pub(crate) fn of(line: &'a [u8]) -> Parts<'a>
        ensures { result ≡ record { parts = parts_in (words_in line.now); is_wrong = false } }
    {
        Parts {
            word: &[],
            line,
            wrong: None,
            misnamed: None,
        }
    }

    /// The next part.
    pub(crate) fn next(&mut self) -> Option<&'a [u8]>
        ensures first { MatchOption result (self.old.parts ≡ []) (λ part. self.old.parts ≡ part.now ∷ self.new.parts) }
        ensures rest { MatchOption result (self.new ≡ self.old) (λ part. self.new ≡ behind self.old self.new.parts) }
        ensures wrong { self.new.is_wrong ≡ self.old.is_wrong }
    {
        let (part, word, line) = next_part(self.word, self.line)?;
        self.word = word;
        self.line = line;
        Some(part)
    }

    /// That a part is refused, or the lack of one. What is told is what did not fit first.
    pub(crate) fn refuse(&self, code: Refusal, expected: Option<Expected>) -> Refused<'a>
        ensures { result.code ≡ code }
    {
        Refused {
            code,
            expected: self.wrong.or(expected),
            misnamed: self.misnamed,
        }
    }

    /// The next part, where there has to be one.
    pub(crate) fn some(&mut self, expected: Expected) -> Result<&'a [u8], Refused<'a>>
        ensures first { MatchResult result (λ part. self.old.parts ≡ part.now ∷ self.new.parts) (λ why. self.old.parts ≡ []) }
        ensures rest { MatchResult result (λ part. self.new ≡ behind self.old self.new.parts) (λ why. why.code ≡ Refusal.B2) }
        ensures wrong { self.new.is_wrong ≡ self.old.is_wrong }
    {
        match self.next() {
            Some(part) => Ok(part),
            None => Err(self.refuse(Refusal::B2, Some(expected))),
        }
    }

    /// What a part means. Where it means nothing that is kept in mind, and another stands for it.
    fn meant<T: Copy>(&mut self, found: Option<T>, other: T, expected: Expected) -> T
        ensures value { result ≡ value_or found other }
        ensures wrong { self.new ≡ record { parts = self.old.parts; is_wrong = is_none found || self.old.is_wrong } }
    {
        match found {
            Some(value) => value,
            None => {
                self.wrong = Some(self.wrong.unwrap_or(expected));
                other
            }
        }
    }

    /// A number below a bound.
    pub(crate) fn number(&mut self, bound: u64) -> Result<u64, Refused<'a>>
        requires { bound ≤ 2 ^ 64 - 1 }
        ensures { ReadsAs (one_part (number_below bound) 0 self.old) result self.new }
    {
        let part = self.some(Expected::Number)?;
        Ok(self.meant(number_below(part, bound), 0, Expected::Number))
    }

    /// A part of a scenario, of a sort.
    pub(crate) fn named(&mut self, naming: &Naming, sort: PartSort) -> Result<u16, Refused<'a>>
        ensures { ReadsAs (one_part (part_meant naming.now sort) 0 self.old) result self.new }
    {
        let part = self.some(Expected::Part)?;
        if self.misnamed.is_none() {
            self.misnamed = naming.misnamed(sort, part);
        }
        Ok(self.meant(naming.part(sort, part), 0, Expected::Part))
    }

    /// A kind of events.
    pub(crate) fn kind(&mut self) -> Result<EventKind, Refused<'a>>
        ensures { ReadsAs (one_part kind_named EventKind.Start self.old) result self.new }
    {
        let part = self.some(Expected::Kind)?;
        Ok(self.meant(kind_named(part), EventKind::Start, Expected::Kind))
    }

    /// A phase.
    fn phase(&mut self) -> Result<Phase, Refused<'a>>
        ensures { ReadsAs (one_part phase_named Phase.SlowStart self.old) result self.new }
    {
        let part = self.some(Expected::Phase)?;
        Ok(self.meant(phase_named(part), Phase::SlowStart, Expected::Phase))
    }

    /// A sign.
    fn sign(&mut self) -> Result<Sign, Refused<'a>>
        ensures { ReadsAs (one_part sign_named Sign.Less self.old) result self.new }
    {
        let part = self.some(Expected::Sign)?;
        Ok(self.meant(sign_named(part), Sign::Less, Expected::Sign))
    }

    /// What a value is compared with.
    fn bound(&mut self, value: Value) -> Result<u64, Refused<'a>>
        ensures { ReadsAs (one_part (bound_named value) 0 self.old) result self.new }
    {
        let expected = if is_time(value) {
            Expected::Time
        } else {
            Expected::Number
        };
        let part = self.some(expected)?;
        Ok(self.meant(bound_named(value, part), 0, expected))
    }

    /// That a value is within a bound.
    fn within(&mut self, value: Value) -> Result<Test, Refused<'a>>
        ensures { ReadsAs (within_in value self.old) result self.new }
    {
        let sign = self.sign()?;
        let number = self.bound(value)?;
        Ok(Test::Within(Bound { sign, number }))
    }

    /// What is asked of a value.
    pub(crate) fn test(&mut self, value: Value) -> Result<Test, Refused<'a>>
        ensures { ReadsAs (test_in value self.old) result self.new }
    {
        if is_phase(value) {
            Ok(Test::Is(self.phase()?))
        } else {
            self.within(value)
        }
    }

    /// A value of a flow.
    pub(crate) fn flow_value(&mut self) -> Result<Value, Refused<'a>>
        ensures { ReadsAs (flow_value_in self.old self.old.parts) result self.new }
    {
        let part = self.some(Expected::Changing)?;
        match changing(part) {
            Some(value) => Ok(value),
            None => Err(self.refuse(Refusal::B1, Some(Expected::Changing))),
        }
    }

    /// That no part was wrong.
    pub(crate) fn end(&self) -> Result<(), Refused<'a>>
        ensures { MatchResult result (λ _. self.now.is_wrong ≡ false) (λ why. (self.now.is_wrong ≡ true) × (why.code ≡ Refusal.B3)) }
    {
        if self.wrong.is_some() {
            Err(self.refuse(Refusal::B3, None))
        } else {
            Ok(())
        }
    }
}
