//! A breakpoint, as it is typed at a prompt.
ghost use Rattle.std.specs.Prelude.{◌≡◌};
ghost use Rattle.breakpoints.specs.Breaks.{asks_nothing};
ghost use Rattle.prompt_words.specs.Input.{words_in};
ghost use Rattle.prompt_words.specs.Signs.{parts_in};
ghost use Rattle.prompt_words.specs.Refusals.{by_code};
ghost use Rattle.prompt_words.specs.Parts.{ReadsAs};
ghost use Rattle.prompt_words.specs.Conditions.{value_sort_named, sort_named, has_sort, sort_asked, of_in, asked_in, change_in, condition_in, one_more, conditions, right, stall_asked, break_asked};

use crate::grammar::is;
use crate::naming::{Naming, PartSort};
use crate::parts::Parts;
use crate::refusal::{Expected, Refusal, Refused};
use crate::value_names::value_named;
use breakpoints::{
    Asked, Break, Condition, Owner, StallOf, Value, ValueCondition, ValueOf, Values,
};

/// One more than the greatest byte that can be asked for: a flow has at most so many.
const BYTES: u64 = 9_000_000_000_001;

/// One more than there are sorts of conditions, of which each stands once.
const MOST_CONDITIONS: u64 = 21;

/// What a condition is about, as its first word names it.
#[derive(Clone, Copy)]
pub enum Sort {
    /// The node of the event.
    Node,
    /// The flow that the event names.
    Flow,
    /// The kind of the event.
    Kind,
    /// That a packet is dropped.
    Drop,
    /// The link that sends or drops a packet.
    Link,
    /// The byte that arrives, or that is acknowledged.
    Byte,
    /// A value that is as asked.
    Value(Value),
    /// A value of a flow that is another than before.
    Change,
}

/// The sort of conditions on a value that a word names.
pub(crate) fn value_sort_named(word: &[u8]) -> Option<Sort>
    ensures { result ≡ value_sort_named word.now }
{
    if is(word, b"change") {
        Some(Sort::Change)
    } else {
        Some(Sort::Value(value_named(word)?))
    }
}

/// The sort of conditions that a word names.
pub(crate) fn sort_named(word: &[u8]) -> Option<Sort>
    ensures { result ≡ sort_named word.now }
{
    if is(word, b"node") {
        Some(Sort::Node)
    } else if is(word, b"flow") {
        Some(Sort::Flow)
    } else if is(word, b"kind") {
        Some(Sort::Kind)
    } else if is(word, b"drop") {
        Some(Sort::Drop)
    } else if is(word, b"link") {
        Some(Sort::Link)
    } else if is(word, b"byte") {
        Some(Sort::Byte)
    } else {
        value_sort_named(word)
    }
}

/// Whether a breakpoint has a condition of a sort.
fn has_sort(b: Break, sort: Sort) -> bool
    ensures { result ≡ has_sort b sort }
{
    match sort {
        Sort::Node => b.node.is_some(),
        Sort::Flow => b.flow.is_some(),
        Sort::Kind => b.kind.is_some(),
        Sort::Drop => b.drops,
        Sort::Link => b.link.is_some(),
        Sort::Byte => b.byte.is_some(),
        Sort::Value(value) => b.values.asked(value).is_some(),
        Sort::Change => b.values.change.is_some(),
    }
}

/// The breakpoint that every line matches.
fn asks_nothing() -> Break
    ensures { result ≡ asks_nothing }
{
    Break {
        node: None,
        flow: None,
        kind: None,
        drops: false,
        link: None,
        byte: None,
        stall: None,
        values: Values::none(),
    }
}

/// The sort that a part names, of which there is no condition yet.
fn sort_asked<'a>(b: Break, word: &[u8], parts: &Parts<'a>) -> Result<Sort, Refused<'a>>
    ensures { by_code result ≡ sort_asked b word.now }
{
    let Some(sort) = sort_named(word) else {
        return Err(parts.refuse(Refusal::B1, Some(Expected::Sort)));
    };
    if has_sort(b, sort) {
        Err(parts.refuse(Refusal::B2, Some(Expected::OtherSort)))
    } else {
        Ok(sort)
    }
}

/// The number of the link that a value is of.
fn of<'a>(naming: &Naming, owner: Owner, parts: &mut Parts<'a>) -> Result<u16, Refused<'a>>
    ensures { ReadsAs (of_in naming.now owner parts.old) result parts.new }
{
    match owner {
        Owner::Link => parts.named(naming, PartSort::Link),
        Owner::Flow | Owner::Nothing => Ok(0),
    }
}

/// That a value is as asked.
fn asked<'a>(naming: &Naming, value: Value, parts: &mut Parts<'a>) -> Result<Condition, Refused<'a>>
    ensures { ReadsAs (asked_in naming.now value parts.old) result parts.new }
{
    let of = of(naming, value.owner(), parts)?;
    let test = parts.test(value)?;
    Ok(Condition::Value(ValueCondition::Is(value, Asked { of, test })))
}

/// That a value of a flow changes.
fn change<'a>(naming: &Naming, parts: &mut Parts<'a>) -> Result<Condition, Refused<'a>>
    ensures { ReadsAs (change_in naming.now parts.old) result parts.new }
{
    let value = parts.flow_value()?;
    let of = parts.named(naming, PartSort::Flow)?;
    Ok(Condition::Value(ValueCondition::Change(ValueOf { value, of })))
}

/// The condition of a sort, by the parts behind its name.
fn condition<'a>(
    naming: &Naming,
    sort: Sort,
    parts: &mut Parts<'a>,
) -> Result<Condition, Refused<'a>>
    ensures { ReadsAs (condition_in naming.now sort parts.old) result parts.new }
{
    match sort {
        Sort::Node => Ok(Condition::Node(parts.named(naming, PartSort::Node)?)),
        Sort::Flow => Ok(Condition::Flow(parts.named(naming, PartSort::Flow)?)),
        Sort::Kind => Ok(Condition::Kind(parts.kind()?)),
        Sort::Drop => Ok(Condition::Drop),
        Sort::Link => Ok(Condition::Link(parts.named(naming, PartSort::Link)?)),
        Sort::Byte => Ok(Condition::Byte(parts.number(BYTES)?)),
        Sort::Value(value) => asked(naming, value, parts),
        Sort::Change => change(naming, parts),
    }
}

/// One condition more: a part names its sort, and those behind it say the rest.
fn one_more<'a>(
    naming: &Naming,
    b: Break,
    word: &[u8],
    parts: &mut Parts<'a>,
) -> Result<Break, Refused<'a>>
    ensures { ReadsAs (one_more naming.now b word.now parts.old) result parts.new }
{
    let sort = sort_asked(b, word, parts)?;
    let more = condition(naming, sort, parts)?;
    Ok(b.and(more))
}

/// The breakpoint of the conditions from a part on, each of another sort.
fn conditions<'a>(
    naming: &Naming,
    first: &'a [u8],
    parts: &mut Parts<'a>,
) -> Result<Break, Refused<'a>>
    ensures { ReadsAs (conditions 21 naming.now asks_nothing first.now parts.old) result parts.new }
{
    let mut b = asks_nothing();
    let mut word = first;
    let mut left = MOST_CONDITIONS;
    while 0 < left {
        b = one_more(naming, b, word, parts)?;
        match parts.next() {
            None => return Ok(b),
            Some(next) => word = next,
        }
        left -= 1;
    }
    Err(parts.refuse(Refusal::B2, Some(Expected::OtherSort)))
}

/// The breakpoint on a stall: of any flow, or of that which the only part behind `stall` means.
fn stall_asked<'a>(naming: &Naming, parts: &mut Parts<'a>) -> Result<Break, Refused<'a>>
    ensures { by_code result ≡ stall_asked naming.now parts.old.parts }
{
    let Some(word) = parts.next() else {
        return Ok(Break::of(Condition::Stall(StallOf::Any)));
    };
    match parts.next() {
        None => {
            let flow = naming.meant(PartSort::Flow, word)?;
            Ok(Break::of(Condition::Stall(StallOf::Flow(flow))))
        }
        Some(_) => Err(parts.refuse(Refusal::B2, None)),
    }
}

/// The breakpoint of conditions of which none is wrong.
fn right_conditions<'a>(
    naming: &Naming,
    first: &'a [u8],
    parts: &mut Parts<'a>,
) -> Result<Break, Refused<'a>>
    ensures { by_code result ≡ right (conditions 21 naming.now asks_nothing first.now parts.old) }
{
    let b = conditions(naming, first, parts)?;
    parts.end()?;
    Ok(b)
}

/// The breakpoint that the words behind `break` name: a stall, which stands alone, or conditions.
pub(crate) fn break_asked<'a>(naming: &Naming, line: &'a [u8]) -> Result<Break, Refused<'a>>
    ensures { by_code result ≡ break_asked naming.now (parts_in (words_in line.now)) }
{
    let mut parts = Parts::of(line);
    let first = parts.some(Expected::Sort)?;
    if is(first, b"stall") {
        stall_asked(naming, &mut parts)
    } else {
        right_conditions(naming, first, &mut parts)
    }
}
