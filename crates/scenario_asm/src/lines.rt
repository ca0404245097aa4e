//! The lines of a text, up to the first that is refused.
ghost use Rattle.std.specs.Prelude.{◌≡◌, [], IfOk, IfNone, IfSome};
ghost use Rattle.scenario_asm.specs.Draft.{Holds};
ghost use Rattle.scenario_asm.specs.Refusals.{AllRead, IsRefusedLine};

use crate::draft::Draft;
use crate::lexer::{Pieces, first_words};
use crate::statement::{StatementFault, read_line};
use std::alloc::{AllocError, Global};

/// A line that is refused.
#[derive(Clone, Copy)]
pub struct RefusedLine<'a> {
    /// Which line, counted from 1.
    pub number: u64,
    /// Its bytes, without the line feed.
    pub bytes: &'a [u8],
    /// What is wrong with it.
    pub refusal: StatementFault,
}

/// Adds what the lines of a text say to a draft that holds nothing, up to the first line that is
/// refused.
#[tactic(auto, using(crate::proofs::Progress::progress_more))]
pub fn read_lines<'a>(
    alloc: Global,
    text: &'a [u8],
    draft: &mut Draft<'a>,
) -> Result<Option<RefusedLine<'a>>, AllocError>
    requires { Holds draft.old [] }
    ensures all { IfOk result (λ refused. IfNone refused (AllRead text.now draft.new)) }
    ensures refused { IfOk result (λ refused. IfSome refused (IsRefusedLine text.now)) }
{
    let mut number = 0u64;
    let mut words = Vec::new(alloc);
    for line in Pieces::new(text, b'\n') {
        number += 1;
        first_words(line, &mut words)?;
        let said = match read_line(&draft.table, line, &words) {
            Ok(said) => said,
            Err(refusal) => {
                return Ok(Some(RefusedLine {
                    number,
                    bytes: line,
                    refusal,
                }));
            }
        };
        draft.add_said(alloc, said)?;
    }
    Ok(None)
}
