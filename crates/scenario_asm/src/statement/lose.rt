//! `lose` statements.
ghost use Rattle.std.specs.Prelude.{◌≡◌, IfErr};
ghost use Rattle.scenario_asm.specs.Names.{last_of, least_above};
ghost use Rattle.scenario_asm.specs.Places.{lose_word};
ghost use Rattle.scenario_asm.specs.Refusals.{word_in, as_fault};
ghost use Rattle.scenario_asm.specs.Statements.{lose_at};
ghost use Rattle.scenario_asm.specs.Table.{known_in};

use super::{LoseLine, Statement, StatementFault};
use crate::fault::Fault;
use crate::lexer::Word;
use crate::number::number_in;
use crate::table::Table;
use scenario_image::limits::{MOST_LOSE, MOST_SEGMENTS};

/// The least NUMBER after these of one link: above the last of them.
fn least_number(lost: &[u32]) -> u64
    ensures { result ≡ least_above (last_of lost.now) }
{
    match lost.last() {
        Some(last) => u64::from(*last) + 1,
        None => 1,
    }
}

/// `lose LINK NUMBER`
pub(super) fn read<'a>(
    table: &Table<'a>,
    words: &[Word<'a>],
) -> Result<Statement<'a>, StatementFault>
    ensures said { as_fault result ≡ lose_at (known_in table.now) words.now }
    ensures word { IfErr result (λ refusal. word_in refusal ≡ lose_word (known_in table.now) words.now) }
{
    let [_lose, link, number] = words else {
        return Err(StatementFault::Line(Fault::E3));
    };
    let link = judge!(1, table.link(link));
    let lost = table.lost(link);
    let number = judge!(
        2,
        number_in(number, least_number(lost), u64::from(MOST_SEGMENTS))
    ) as u32;
    if lost.len() >= MOST_LOSE {
        return Err(StatementFault::Line(Fault::E9));
    }
    Ok(Statement::Lose(LoseLine { link, number }))
}
