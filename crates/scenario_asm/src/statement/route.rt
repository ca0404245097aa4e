//! `route` statements.
ghost use Rattle.std.specs.Prelude.{◌≡◌, IfErr};
ghost use Rattle.scenario_asm.specs.Places.{route_word};
ghost use Rattle.scenario_asm.specs.Refusals.{word_in, as_fault};
ghost use Rattle.scenario_asm.specs.Statements.{route_at};
ghost use Rattle.scenario_asm.specs.Table.{known_in};

use super::{Statement, StatementFault};
use crate::fault::Fault;
use crate::lexer::Word;
use crate::table::Table;
use scenario_image::RoutePart;

/// `route ROUTER DEST LINK`
pub(super) fn read<'a>(
    table: &Table<'a>,
    words: &[Word<'a>],
) -> Result<Statement<'a>, StatementFault>
    ensures said { as_fault result ≡ route_at (known_in table.now) words.now }
    ensures word { IfErr result (λ refusal. word_in refusal ≡ route_word (known_in table.now) words.now) }
{
    let [_route, router, destination, link] = words else {
        return Err(StatementFault::Line(Fault::E3));
    };
    let router = judge!(1, table.router(router));
    let destination = judge!(2, table.destination(router, destination));
    let link = judge!(3, table.outgoing(router, link));
    Ok(Statement::Route(RoutePart {
        router,
        destination,
        link,
    }))
}
