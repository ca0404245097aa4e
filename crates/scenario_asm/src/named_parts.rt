//! What a text declares in which no line is faulty.
ghost use Rattle.std.specs.Prelude.{◌≡◌, ◌++◌, [], map, OnOk, IfOk, IfSome, IsSomeAnd};
ghost use Rattle.std.specs.List.{cons_option};
ghost use Rattle.scenario_image.specs.declared.parts.ScenarioParts.{ScenarioParts};
ghost use Rattle.scenario_asm.specs.Lines.{lines_of_text};
ghost use Rattle.scenario_asm.specs.Declarations.{second_after, seconds_after, DeclaresParts, Declares};

use crate::draft::Draft;
use crate::lexer::{Pieces, Word, first_words};
use crate::lines::read_lines;
use scenario_image::ScenarioParts;
use std::alloc::{AllocError, Global};

/// What a text declares in which no line is faulty.
#[derive(Drop)]
pub struct NamedParts<'a> {
    /// The parts, whether they make a scenario or not.
    pub parts: ScenarioParts,
    /// The nodes' names, in the order of their numbers.
    pub nodes: Vec<&'a [u8]>,
    /// The links' names, in the order of their numbers.
    pub links: Vec<&'a [u8]>,
    /// The flows' names, in the order of their numbers.
    pub flows: Vec<&'a [u8]>,
}

/// Adds the second of some words, where the first is this one. An `Err` adds nothing.
fn push_second<'a>(
    seconds: &mut Vec<&'a [u8]>,
    first: &[u8],
    words: &[Word<'a>],
) -> Result<(), AllocError>
    ensures { OnOk result (map (λ second. second.now) seconds.new.items ≡ map (λ second. second.now) seconds.old.items ++ cons_option (second_after first.now words.now) []) }
{
    if let [word, second, ..] = words {
        if word.is(first) {
            seconds.push(second.bytes())?;
        }
    }
    Ok(())
}

/// The second words of the lines of a text whose first word is this one.
fn seconds_after<'a>(
    alloc: Global,
    first: &[u8],
    text: &'a [u8],
) -> Result<Vec<&'a [u8]>, AllocError>
    ensures { IfOk result (λ seconds. map (λ second. second.now) seconds.items ≡ seconds_after first.now (lines_of_text text.now)) }
{
    let mut seconds = Vec::new(alloc);
    let mut words = Vec::new(alloc);
    for line in Pieces::new(text, b'\n') {
        first_words(line, &mut words)?;
        push_second(&mut seconds, first, &words)?;
    }
    Ok(seconds)
}

/// The parts that a text declares, with the names.
fn with_names<'a>(
    alloc: Global,
    text: &'a [u8],
    parts: ScenarioParts,
) -> Result<NamedParts<'a>, AllocError>
    requires { DeclaresParts text.now parts }
    ensures declared { IfOk result (Declares text.now) }
    ensures parts { IfOk result (λ named. named.parts ≡ parts) }
{
    let nodes = seconds_after(alloc, b"node", text)?;
    let links = seconds_after(alloc, b"link", text)?;
    let flows = seconds_after(alloc, b"flow", text)?;
    Ok(NamedParts {
        parts,
        nodes,
        links,
        flows,
    })
}

/// What a text declares, or `None` where a line of it is faulty or it has not exactly one `sim`. For use
/// after a refusal: it reads the text once more, and thrice for the names.
pub fn parts_of_text<'a>(
    alloc: Global,
    text: &'a [u8],
) -> Result<Option<NamedParts<'a>>, AllocError>
    ensures declared { IfOk result (λ found. IfSome found (Declares text.now)) }
    ensures only { (parts : ScenarioParts) → DeclaresParts text.now parts → IfOk result (λ found. IsSomeAnd found (λ named. named.parts ≡ parts)) }
{
    let mut draft = Draft::new(alloc);
    if read_lines(alloc, text, &mut draft)?.is_some() {
        return Ok(None);
    }
    match draft.into_parts(alloc)? {
        Some(parts) => Ok(Some(with_names(alloc, text, parts)?)),
        None => Ok(None),
    }
}
