//! `flow` statements.
ghost use Rattle.std.specs.Prelude.{◌≡◌, ◌≤◌, IfErr, length};
ghost use Rattle.scenario_asm.specs.WordParts.{IsReadFrom, flow_end_verdicts, flow_ends_said, flow_number_verdicts, flow_numbers_said, variant_verdicts, variant_said};
ghost use Rattle.scenario_asm.specs.Places.{flow_word};
ghost use Rattle.scenario_asm.specs.Refusals.{word_in, as_fault};
ghost use Rattle.scenario_asm.specs.Statements.{has_flow_length, flow_at};
ghost use Rattle.scenario_asm.specs.Table.{known_in};

use super::variant::{iw, tcp};
use super::{Statement, StatementFault};
use crate::fault::Fault;
use crate::lexer::Word;
use crate::name::Name;
use crate::number::number_in;
use crate::table::Table;
use scenario_image::FlowPart;
use scenario_image::limits::{
    GREATEST_MSS, GREATEST_RWND, LATEST_END, LONGEST_DELACK, MOST_FLOWS, MOST_SEGMENTS,
};
use sim_time::{Time, Variant};

/// Whether a `flow` has a right number of words: nine, or two more that say its sender.
fn has_flow_length(words: &[Word<'_>]) -> bool
    ensures { result ≡ has_flow_length words.now }
{
    words.len() == 9 || words.len() == 11
}

/// The name and the ends of a `flow`, by its second to fourth word.
fn name_and_ends<'a>(
    table: &Table<'a>,
    words: &[Word<'a>],
) -> Result<(Name<'a>, u16, u16), StatementFault>
    requires { 9 ≤ length words.now }
    ensures { IsReadFrom 1 (flow_end_verdicts (known_in table.now) words.now) (flow_ends_said (known_in table.now) words.now) result }
{
    let [_flow, name, sender, receiver, ..] = words else {
        return Err(StatementFault::Line(Fault::E3));
    };
    let name = judge!(1, table.new_name(name));
    let sender = judge!(2, table.sender(sender));
    let receiver = judge!(3, table.receiver(receiver));
    Ok((name, sender, receiver))
}

/// What a `flow` says in numbers.
#[derive(Clone, Copy)]
struct FlowNumbers {
    /// Bytes of data in a segment.
    mss: u16,
    /// How many segments are sent.
    segments: u32,
    /// When the flow starts, in nanoseconds.
    start: Time,
    /// The receiver's window, in bytes.
    rwnd: u32,
    /// How long the receiver may delay an acknowledgement, in nanoseconds.
    delack: u32,
}

/// The numbers of a `flow`, by its fifth to ninth word.
fn numbers(words: &[Word<'_>]) -> Result<FlowNumbers, StatementFault>
    requires { 9 ≤ length words.now }
    ensures { IsReadFrom 4 (flow_number_verdicts words.now) (flow_numbers_said words.now) result }
{
    let [_, _, _, _, mss, segments, start, rwnd, delack, ..] = words else {
        return Err(StatementFault::Line(Fault::E3));
    };
    let mss = judge!(4, number_in(mss, 1, u64::from(GREATEST_MSS))) as u16;
    let segments = judge!(5, number_in(segments, 1, u64::from(MOST_SEGMENTS))) as u32;
    let start = judge!(6, number_in(start, 0, LATEST_END - 1));
    let rwnd = judge!(7, number_in(rwnd, u64::from(mss), u64::from(GREATEST_RWND))) as u32;
    let delack = judge!(8, number_in(delack, 0, u64::from(LONGEST_DELACK))) as u32;
    Ok(FlowNumbers {
        mss,
        segments,
        start,
        rwnd,
        delack,
    })
}

/// Which sender a `flow` has, by its tenth and eleventh word.
fn variant(words: &[Word<'_>]) -> Result<Variant, StatementFault>
    ensures { IsReadFrom 9 (variant_verdicts words.now) (variant_said words.now) result }
{
    let tcp = judge!(9, tcp(words));
    let iw = judge!(10, iw(words));
    Ok(Variant { iw, ..tcp })
}

/// `flow NAME SENDER RECEIVER MSS SEGMENTS START RWND DELACK`, and perhaps a word of `tcp_words` and
/// `iw3` or `iw10`
pub(super) fn read<'a>(
    table: &Table<'a>,
    words: &[Word<'a>],
) -> Result<Statement<'a>, StatementFault>
    ensures said { as_fault result ≡ flow_at (known_in table.now) words.now }
    ensures word { IfErr result (λ refusal. word_in refusal ≡ flow_word (known_in table.now) words.now) }
{
    if !has_flow_length(words) {
        return Err(StatementFault::Line(Fault::E3));
    }
    let (name, sender, receiver) = name_and_ends(table, words)?;
    let numbers = numbers(words)?;
    let variant = variant(words)?;
    if table.flows.len() >= MOST_FLOWS {
        return Err(StatementFault::Line(Fault::E9));
    }
    let part = FlowPart {
        sender,
        receiver,
        mss: numbers.mss,
        segments: numbers.segments,
        start: numbers.start,
        rwnd: numbers.rwnd,
        delack: numbers.delack,
        variant,
    };
    Ok(Statement::Flow(name, part))
}
