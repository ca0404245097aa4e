//! How the nodes, links and flows of a scenario are called.
ghost use Rattle.std.specs.Prelude.{◌≡◌, ◌==◌, ◌++◌, [], length, slice_index_or, IfOk, OnOk, OnErr, map};
ghost use Rattle.std.specs.List.{position_from};
ghost use Rattle.std.specs.Str.{bytes_eq};
ghost use Rattle.flow_waits.specs.Names.{part_name};

use itoa::Buffer;
use std::alloc::{AllocError, Global};
use std::fmt;
use std::marker::Model;
use trace_text::ByteText;

/// The names of all parts of a sort, in the order of their numbers; none of an image.
#[derive(Drop)]
pub struct PartNames {
    names: Vec<Vec<u8>>,
}

impl Model for PartNames {
    ghost use Rattle.std.specs.Prelude.{ℕ, List, map};

    ghost Value = { List (List ℕ) };

    ghost view = { λ n. map (λ name. name.items) n.names.items };
}

impl PartNames {
    /// No names.
    pub fn none(alloc: Global) -> PartNames
        ensures { result ≡ [] }
    {
        PartNames {
            names: Vec::new(alloc),
        }
    }

    /// These names.
    pub fn of(alloc: Global, names: &[&[u8]]) -> Result<PartNames, AllocError>
        ensures { IfOk result (λ copies. copies ≡ map (λ name. name.now) names.now) }
    {
        let mut copies = Vec::new(alloc);
        for name in names {
            copies.push(Vec::from_slice(alloc, *name)?)?;
        }
        Ok(PartNames { names: copies })
    }

    /// How many there are.
    pub fn len(&self) -> usize
        ensures { result ≡ length self.now }
    {
        self.names.len()
    }

    /// Whether there is none.
    pub fn is_empty(&self) -> bool
        ensures { result ≡ (length self.now == 0) }
    {
        self.names.len() == 0
    }

    /// The name of the part of a number; no byte where it has none.
    pub fn get(&self, number: usize) -> &[u8]
        ensures { result.now ≡ slice_index_or self.now number [] }
    {
        if number < self.names.len() {
            self.names[number].as_slice()
        } else {
            b""
        }
    }

    /// The number of the first part that has a name.
    pub fn number_of(&self, name: &[u8]) -> Option<usize>
        ensures { result ≡ position_from (λ own. bytes_eq own name.now) 0 self.now }
    {
        for index in 0..self.len() {
            if self.get(index) == name {
                return Some(index);
            }
        }
        None
    }

    /// Appends how the part of a number is called: by its name, or by the number where it has none. An `Err` appends
    /// nothing.
    pub fn append_name(&self, number: u16, out: &mut Vec<u8>) -> Result<(), AllocError>
        ensures ok { OnOk result (out.new.items ≡ out.old.items ++ part_name self.now number) }
        ensures err { OnErr result (out.new.items ≡ out.old.items) }
    {
        let name = self.get(usize::from(number));
        if name.len() == 0 {
            let mut digits = Buffer::new();
            out.extend_from_slice(digits.format(number).as_bytes())
        } else {
            out.extend_from_slice(name)
        }
    }
}

/// How all parts of a scenario are called.
#[derive(Drop)]
pub struct ScenarioNames {
    /// The nodes' names.
    pub nodes: PartNames,
    /// The links' names.
    pub links: PartNames,
    /// The flows' names.
    pub flows: PartNames,
}

/// How the part of a number is called, by the names of its sort.
#[derive(Drop)]
pub(crate) struct PartName<'a>(pub(crate) &'a PartNames, pub(crate) u16);

impl fmt::Display for PartName<'_> {
    ghost use Rattle.std.specs.Prelude.{Some};

    ghost output = { λ part. Some (part_name part.0.now part.1) };

    fn fmt<W: fmt::Write>(&self, f: &mut fmt::Formatter<W>) -> fmt::Result {
        let name = self.0.get(usize::from(self.1));
        if name.len() == 0 {
            write!(f, "{}", self.1)
        } else {
            ByteText(name).fmt(f)
        }
    }
}
