//! The names of nodes, links and flows, as they are told.
ghost use Rattle.std.specs.Prelude.{◌≡◌, ◌++◌, [], ◌∷◌, decimal, OnOk};
ghost use Rattle.flow_waits.specs.Names.{named};
ghost use Rattle.trace_text.specs.Words.{line_of_words};
ghost use Rattle.prompt_words.specs.NamesReported.{names_from, names_text};

use crate::naming::Naming;
use flow_waits::PartNames;
use itoa::write_digits;
use std::alloc::AllocError;

/// The most digits of a number.
const DIGITS: usize = 20;

// Appends a number.
pub fn append_number(out: &mut Vec<u8>, n: u64) -> Result<(), AllocError>
    ensures { OnOk result (out.new.items ≡ out.old.items ++ decimal n) }
{
    let mut digits = [0; DIGITS];
    let start = write_digits(n, &mut digits, DIGITS);
    out.extend_from_slice(&digits[start..])
}

// Appends a number between words.
pub fn append_counted(
    out: &mut Vec<u8>,
    before: &[u8],
    n: u64,
    behind: &[u8],
) -> Result<(), AllocError>
    ensures { OnOk result (out.new.items ≡ out.old.items ++ (before.now ++ (decimal n ++ behind.now))) }
{
    out.extend_from_slice(before)?;
    append_number(out, n)?;
    out.extend_from_slice(behind)
}

/// Appends a word and how the part of a number is called.
pub fn append_behind(
    out: &mut Vec<u8>,
    word: &[u8],
    names: &PartNames,
    number: u16,
) -> Result<(), AllocError>
    ensures { OnOk result (out.new.items ≡ out.old.items ++ named word.now names.now number) }
{
    out.extend_from_slice(word)?;
    names.append_name(number, out)
}

// Appends the line of a part: its sort, its number and its name.
fn append_named(out: &mut Vec<u8>, sort: &[u8], n: u64, name: &[u8]) -> Result<(), AllocError>
    ensures { OnOk result (out.new.items ≡ out.old.items ++ line_of_words (sort.now ∷ decimal n ∷ name.now ∷ [])) }
{
    out.extend_from_slice(sort)?;
    out.extend_from_slice(b" ")?;
    append_number(out, n)?;
    out.extend_from_slice(b" ")?;
    out.extend_from_slice(name)?;
    out.extend_from_slice(b"\n")
}

// Appends a line for each part of a sort that has a name.
fn append_sort(out: &mut Vec<u8>, sort: &[u8], names: &PartNames) -> Result<(), AllocError>
    ensures { OnOk result (out.new.items ≡ out.old.items ++ names_from sort.now 0 names.now) }
{
    for index in 0..names.len() {
        append_named(out, sort, index as u64, names.get(index))?;
    }
    Ok(())
}

/// Appends the names of nodes, links and flows with their numbers.
pub fn append_names(out: &mut Vec<u8>, naming: &Naming) -> Result<(), AllocError>
    ensures { OnOk result (out.new.items ≡ out.old.items ++ names_text naming.now) }
{
    if naming.names.nodes.is_empty() {
        out.extend_from_slice(b"this scenario has no names\n")
    } else {
        append_sort(out, b"node", &naming.names.nodes)?;
        append_sort(out, b"link", &naming.names.links)?;
        append_sort(out, b"flow", &naming.names.flows)
    }
}
