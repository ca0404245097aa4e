//! The last column of a table, with the names of flows and links.
ghost use Rattle.std.specs.Prelude.{◌≡◌, ◌++◌, [], None, Some, OnOk, slice_index_or, map};
ghost use Rattle.figures_text.specs.Table.{TextNames, name_of, name_text, heading_name};

use crate::subject::Subject;
use std::alloc::{AllocError, Global};
use std::marker::Model;

/// The last column of a table: the names of flows and links by their numbers, or no such column.
#[derive(Drop)]
pub struct NameColumn<'a> {
    /// Whether it is there.
    shown: bool,
    /// The flows' names.
    flows: Vec<&'a [u8]>,
    /// The links' names.
    links: Vec<&'a [u8]>,
}

impl<'a> Model for NameColumn<'a> {
    ghost use Rattle.std.specs.Prelude.{Option, Some, None, if◌then◌else◌, map};
    ghost use Rattle.figures_text.specs.Table.{TextNames};

    ghost Value = { Option TextNames };

    ghost view = { λ s. if s.shown then Some (record { flows = map (λ name. name.now) s.flows.items; links = map (λ name. name.now) s.links.items }) else None };
}

/// The word at a number, or an empty one.
fn word_at<'a>(words: &[&'a [u8]], number: u64) -> &'a [u8]
    ensures { result.now ≡ slice_index_or (map (λ word. word.now) words.now) number [] }
{
    if number < words.len() as u64 {
        words[number as usize]
    } else {
        b""
    }
}

/// The name of what a line is about; an empty one of the run.
fn name_of<'a>(flows: &[&'a [u8]], links: &[&'a [u8]], subject: Subject) -> &'a [u8]
    ensures { result.now ≡ name_of (record { flows = map (λ name. name.now) flows.now; links = map (λ name. name.now) links.now }) subject }
{
    match subject {
        Subject::Flow(number) => word_at(flows, number),
        Subject::Link(number) => word_at(links, number),
        Subject::Run => b"",
    }
}

impl<'a> NameColumn<'a> {
    /// No such column.
    pub fn none(alloc: Global) -> NameColumn<'a>
        ensures { result ≡ None }
    {
        NameColumn {
            shown: false,
            flows: Vec::new(alloc),
            links: Vec::new(alloc),
        }
    }

    /// The names of flows and of links, each in the order of their numbers.
    pub fn of(flows: Vec<&'a [u8]>, links: Vec<&'a [u8]>) -> NameColumn<'a>
        ensures { result ≡ Some (record { flows = map (λ name. name.now) flows.entry.items; links = map (λ name. name.now) links.entry.items }) }
    {
        NameColumn {
            shown: true,
            flows,
            links,
        }
    }

    /// Appends its heading.
    pub(crate) fn append_heading(&self, text: &mut Vec<u8>) -> Result<(), AllocError>
        ensures { OnOk result (text.new.items ≡ text.old.items ++ heading_name self.now) }
    {
        if self.shown {
            text.extend_from_slice(b",name")
        } else {
            Ok(())
        }
    }

    /// Appends what it has in a line.
    pub(crate) fn append_name(&self, subject: Subject, text: &mut Vec<u8>) -> Result<(), AllocError>
        ensures { OnOk result (text.new.items ≡ text.old.items ++ name_text self.now subject) }
    {
        if self.shown {
            text.extend_from_slice(b",")?;
            text.extend_from_slice(name_of(&self.flows, &self.links, subject))
        } else {
            Ok(())
        }
    }
}
