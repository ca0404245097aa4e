//! Where in its line a text's first fault is.
ghost use Rattle.std.specs.Prelude.{◌≡◌, ℕ, IfOk, IfSome, IsSomeAnd};
ghost use Rattle.scenario_asm.specs.declared.fault.Fault.{Fault};
ghost use Rattle.scenario_asm.specs.Meaning.{IsLineFault};
ghost use Rattle.scenario_asm.specs.Places.{IsPart, IsFaultPlace};

use crate::draft::Draft;
use crate::fault::Fault;
use crate::lexer::{first_unprintable, word_range};
use crate::lines::read_lines;
use std::alloc::{AllocError, Global};

/// The part of a line that is faulty.
#[derive(Clone, Copy)]
pub enum Part {
    /// The line as a whole: it has another number of words (E3), or is one statement too many (E9).
    Line,
    /// The byte at this place, counted from 0: the first that is not printable (E1).
    Byte(usize),
    /// A word: the first that is faulty.
    Word {
        /// Which word of the line, counted from 0.
        number: usize,
        /// Where in the line its first byte stands, counted from 0.
        start: usize,
        /// One more than where its last byte stands.
        end: usize,
    },
}

/// Where a text's first fault is, if it is that of a line.
#[derive(Clone, Copy)]
pub struct FaultPlace<'a> {
    /// The line, counted from 1.
    pub line: u64,
    /// The line's bytes, without its line feed.
    pub bytes: &'a [u8],
    /// What is wrong with it.
    pub fault: Fault,
    /// The part of it that is faulty.
    pub part: Part,
}

/// The part of a line that is this word; with none the first byte that is not printable, or all.
fn part_of(line: &[u8], word: Option<usize>) -> Part
    ensures { IsPart line.now word result }
{
    match word {
        Some(number) => {
            let (start, end) = word_range(line, number);
            Part::Word { number, start, end }
        }
        None => match first_unprintable(line) {
            Some(place) => Part::Byte(place),
            None => Part::Line,
        },
    }
}

/// Where the first faulty line of a text is faulty, or `None` where each line is right. For use after
/// a refusal: it reads the text once more.
pub fn fault_place<'a>(alloc: Global, text: &'a [u8]) -> Result<Option<FaultPlace<'a>>, AllocError>
    ensures place { IfOk result (λ found. IfSome found (IsFaultPlace text.now)) }
    ensures only { (number : ℕ) (fault : Fault) → IsLineFault text.now number fault → IfOk result (λ found. IsSomeAnd found (λ place. (place.line ≡ number) × (place.fault ≡ fault))) }
{
    let mut draft = Draft::new(alloc);
    match read_lines(alloc, text, &mut draft)? {
        Some(refused) => Ok(Some(FaultPlace {
            line: refused.number,
            bytes: refused.bytes,
            fault: refused.refusal.fault(),
            part: part_of(refused.bytes, refused.refusal.word()),
        })),
        None => Ok(None),
    }
}
