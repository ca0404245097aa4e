//! `node` statements.
ghost use Rattle.std.specs.Prelude.{◌≡◌, IfErr};
ghost use Rattle.scenario_asm.specs.Places.{node_word};
ghost use Rattle.scenario_asm.specs.Refusals.{word_in, as_fault};
ghost use Rattle.scenario_asm.specs.Statements.{kind_named, node_statement};
ghost use Rattle.scenario_asm.specs.Table.{known_in};

use super::{Statement, StatementFault};
use crate::fault::Fault;
use crate::lexer::Word;
use crate::table::Table;
use scenario_image::NodeKind;
use scenario_image::limits::MOST_NODES;

/// What a word says that a node does.
fn kind(word: &Word<'_>) -> Option<NodeKind>
    ensures { result ≡ kind_named word.now }
{
    if word.is(b"sender") {
        Some(NodeKind::Sender)
    } else if word.is(b"receiver") {
        Some(NodeKind::Receiver)
    } else if word.is(b"router") {
        Some(NodeKind::Router)
    } else {
        None
    }
}

/// `node NAME KIND`
pub(super) fn read<'a>(
    table: &Table<'a>,
    words: &[Word<'a>],
) -> Result<Statement<'a>, StatementFault>
    ensures said { as_fault result ≡ node_statement (known_in table.now) words.now }
    ensures word { IfErr result (λ refusal. word_in refusal ≡ node_word (known_in table.now) words.now) }
{
    let [_node, name, does] = words else {
        return Err(StatementFault::Line(Fault::E3));
    };
    let name = judge!(1, table.new_name(name));
    let Some(kind) = kind(does) else {
        return Err(StatementFault::Word(2, Fault::E4));
    };
    if table.kinds.len() >= MOST_NODES {
        return Err(StatementFault::Line(Fault::E9));
    }
    Ok(Statement::Node(name, kind))
}
