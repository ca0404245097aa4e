//! `link` statements.
ghost use Rattle.std.specs.Prelude.{◌≡◌, ◌||◌, ◌≤◌, IsTrue, IfErr, nat_le, length};
ghost use Rattle.scenario_asm.specs.Names.{is_full_router};
ghost use Rattle.scenario_asm.specs.Places.{link_word};
ghost use Rattle.scenario_asm.specs.Refusals.{word_in, as_fault};
ghost use Rattle.scenario_asm.specs.Statements.{is_drop_tail, is_codel, has_link_length, codel_verdicts, queue_said, link_statement};
ghost use Rattle.scenario_asm.specs.Table.{known_in};
ghost use Rattle.scenario_asm.specs.WordParts.{IsReadFrom, link_end_verdicts, link_ends_said, link_number_verdicts, link_numbers_said};

use super::{LinkLine, Statement, StatementFault, has_word};
use crate::fault::Fault;
use crate::lexer::Word;
use crate::name::Name;
use crate::number::number_in;
use crate::table::Table;
use scenario_image::limits::{LONGEST_DELAY, MOST_LINKS};
use scenario_image::{CodelParameters, QueueKind};
use sim_time::Time;
use sim_time::rate::{GREATEST_RATE, LEAST_RATE};

/// Whether a `link` has a right number of words: 8 with `droptail`, 11 with `codel`, and one of
/// these with another seventh word.
fn has_link_length(words: &[Word<'_>]) -> bool
    ensures { result ≡ has_link_length words.now }
{
    if has_word(words, 6, b"droptail") {
        words.len() == 8
    } else if has_word(words, 6, b"codel") {
        words.len() == 11
    } else {
        words.len() == 8 || words.len() == 11
    }
}

/// Whether the seventh word says how the queue drops.
fn names_a_queue(words: &[Word<'_>]) -> bool
    ensures { result ≡ (is_drop_tail words.now || is_codel words.now) }
{
    has_word(words, 6, b"droptail") || has_word(words, 6, b"codel")
}

/// Whether there are as many links as there may be, or as many that leave this node.
fn is_full(table: &Table<'_>, from: u16) -> bool
    ensures { result ≡ (nat_le MOST_LINKS (length (known_in table.now).links) || is_full_router (known_in table.now) from) }
{
    table.links.len() >= MOST_LINKS || table.is_full_router(from)
}

/// How a queue drops: with the seventh word `codel` by the last three of eleven words.
fn queue(words: &[Word<'_>]) -> Result<QueueKind, StatementFault>
    requires { IsTrue (is_codel words.now) → length words.now ≡ 11 }
    ensures { IsReadFrom 8 (codel_verdicts words.now) (queue_said words.now) result }
{
    if !has_word(words, 6, b"codel") {
        return Ok(QueueKind::DropTail);
    }
    let [_, _, _, _, _, _, _, _, target, interval, maxpacket] = words else {
        return Err(StatementFault::Line(Fault::E3));
    };
    let target = judge!(8, number_in(target, 1, LONGEST_DELAY));
    let interval = judge!(9, number_in(interval, 1, LONGEST_DELAY));
    let maxpacket = judge!(10, number_in(maxpacket, 1, u64::from(u16::MAX))) as u16;
    Ok(QueueKind::Codel(CodelParameters {
        target,
        interval,
        maxpacket,
    }))
}

/// The name and the ends of a `link`, by its second to fourth word.
fn name_and_ends<'a>(
    table: &Table<'a>,
    words: &[Word<'a>],
) -> Result<(Name<'a>, u16, u16), StatementFault>
    requires { 8 ≤ length words.now }
    ensures { IsReadFrom 1 (link_end_verdicts (known_in table.now) words.now) (link_ends_said (known_in table.now) words.now) result }
{
    let [_link, name, from, to, ..] = words else {
        return Err(StatementFault::Line(Fault::E3));
    };
    let name = judge!(1, table.new_name(name));
    let from = judge!(2, table.node(from));
    let to = judge!(3, table.other_node(from, to));
    Ok((name, from, to))
}

/// The rate, the delay and the capacity of a `link`, by its fifth to eighth word.
fn numbers(words: &[Word<'_>]) -> Result<(u64, Time, u16), StatementFault>
    requires { 8 ≤ length words.now }
    ensures { IsReadFrom 4 (link_number_verdicts words.now) (link_numbers_said words.now) result }
{
    let [_, _, _, _, rate, delay, _drops, capacity, ..] = words else {
        return Err(StatementFault::Line(Fault::E3));
    };
    let rate = judge!(4, number_in(rate, LEAST_RATE, GREATEST_RATE));
    let delay = judge!(5, number_in(delay, 1, LONGEST_DELAY));
    if !names_a_queue(words) {
        return Err(StatementFault::Word(6, Fault::E4));
    }
    let capacity = judge!(7, number_in(capacity, 1, u64::from(u16::MAX))) as u16;
    Ok((rate, delay, capacity))
}

/// `link NAME FROM TO RATE DELAY droptail CAP`, or with `codel CAP TARGET INTERVAL MAXPACKET`
pub(super) fn read<'a>(
    table: &Table<'a>,
    words: &[Word<'a>],
) -> Result<Statement<'a>, StatementFault>
    ensures said { as_fault result ≡ link_statement (known_in table.now) words.now }
    ensures word { IfErr result (λ refusal. word_in refusal ≡ link_word (known_in table.now) words.now) }
{
    if !has_link_length(words) {
        return Err(StatementFault::Line(Fault::E3));
    }
    let (name, from, to) = name_and_ends(table, words)?;
    let (rate, delay, capacity) = numbers(words)?;
    let queue = queue(words)?;
    if is_full(table, from) {
        return Err(StatementFault::Line(Fault::E9));
    }
    let line = LinkLine {
        from,
        to,
        rate,
        delay,
        queue,
        capacity,
    };
    Ok(Statement::Link(name, line))
}
