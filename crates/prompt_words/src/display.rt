//! What is displayed after each move.
ghost use Rattle.std.specs.Prelude.{◌≡◌, ◌<◌, ◌↔◌, IsTrue, MatchOption, Contains, length, slice_index_or};
ghost use Rattle.breakpoints.specs.Values.{owner_of};
ghost use Rattle.prompt_words.specs.Input.{words_in};
ghost use Rattle.prompt_words.specs.DisplayGrammar.{sort_of_owner, value_asked, item_asked, display_asked};
ghost use Rattle.prompt_words.specs.Numbered.{IsNumber};
ghost use Rattle.prompt_words.specs.Refusals.{by_code};

use crate::conditions::{Sort, sort_named};
use crate::cut::next_word;
use crate::naming::{Naming, PartSort};
use crate::refusal::{Refusal, Refused};
use breakpoints::{Owner, Value, ValueOf};

/// The most displays that there are at one time.
pub const MOST_DISPLAYS: usize = 64;

/// What can be displayed.
#[derive(Clone, Copy, PartialEq, Eq)]
pub enum DisplayItem {
    /// All values of the flow of this number.
    Flow(u16),
    /// All values of the link of this number.
    Link(u16),
    /// One value.
    One(ValueOf),
}

/// What is asked of the displays of a session.
#[derive(Clone, Copy)]
pub enum DisplayCommand {
    /// Nothing but to see them.
    All,
    /// To display this too.
    Add(DisplayItem),
    /// To take away the display of this number.
    TakeAway(u64),
}

/// The sort of the parts that have a value.
fn sort_of_owner(owner: Owner) -> Option<PartSort>
    ensures { result ≡ sort_of_owner owner }
{
    match owner {
        Owner::Flow => Some(PartSort::Flow),
        Owner::Link => Some(PartSort::Link),
        Owner::Nothing => None,
    }
}

/// What is displayed of a value, of the part that the only word of a line means.
fn value_asked<'a>(
    naming: &Naming,
    value: Value,
    line: &'a [u8],
) -> Result<DisplayItem, Refused<'a>>
    ensures { by_code result ≡ value_asked naming.now value (sort_of_owner (owner_of value)) (words_in line.now) }
{
    match sort_of_owner(value.owner()) {
        Some(sort) => {
            let of = naming.one_part(sort, line)?;
            Ok(DisplayItem::One(ValueOf { value, of }))
        }
        None => Err(Refused::from(Refusal::B1)),
    }
}

/// What a sort says is displayed, of the part that the only word of a line means.
fn item_asked<'a>(
    naming: &Naming,
    sort: Sort,
    line: &'a [u8],
) -> Result<DisplayCommand, Refused<'a>>
    ensures { by_code result ≡ item_asked naming.now sort (words_in line.now) }
{
    let item = match sort {
        Sort::Flow => DisplayItem::Flow(naming.one_part(PartSort::Flow, line)?),
        Sort::Link => DisplayItem::Link(naming.one_part(PartSort::Link, line)?),
        Sort::Value(value) => value_asked(naming, value, line)?,
        Sort::Node | Sort::Kind | Sort::Drop | Sort::Byte | Sort::Change => {
            return Err(Refused::from(Refusal::B1));
        }
    };
    Ok(DisplayCommand::Add(item))
}

/// What is asked by the words behind `display`.
pub(crate) fn display_asked<'a>(
    naming: &Naming,
    line: &'a [u8],
) -> Result<DisplayCommand, Refused<'a>>
    ensures { by_code result ≡ display_asked naming.now (words_in line.now) }
{
    match next_word(line) {
        None => Ok(DisplayCommand::All),
        Some((word, rest)) => match sort_named(word) {
            None => Err(Refused::from(Refusal::B1)),
            Some(sort) => item_asked(naming, sort, rest),
        },
    }
}

/// Whether the same is displayed.
fn is_same_item(a: DisplayItem, b: DisplayItem) -> bool
    ensures { IsTrue result ↔ (a ≡ b) }
{
    a == b
}

/// The display at an index.
fn item_at(displays: &[DisplayItem], index: usize) -> DisplayItem
    requires { index < length displays.now }
    ensures { (other : DisplayItem) → slice_index_or displays.now index other ≡ result }
{
    displays[index]
}

/// The number of a display among those that there are.
pub fn number_of_display(displays: &[DisplayItem], item: DisplayItem) -> Option<u64>
    ensures { MatchOption result (¬ Contains displays.now item) (λ i. IsNumber displays.now item i) }
{
    for index in 0..displays.len() {
        let other = item_at(displays, index);
        if is_same_item(other, item) {
            return Some(index as u64 + 1);
        }
    }
    None
}
