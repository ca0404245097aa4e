//! The column of names that the figures of an input can have.
ghost use Rattle.std.specs.Prelude.{◌≡◌, false, IfOk};
ghost use Rattle.scenario_image.specs.declared.parts.ScenarioParts.{ScenarioParts};
ghost use Rattle.scenario_asm.specs.Meaning.{MeansScenario};
ghost use Rattle.sessions.specs.Input.{InputHasScenario, is_image};
ghost use Rattle.sessions.specs.NameColumns.{IsTextColumn, IsColumnOf};

use figures_text::NameColumn;
use scenario_asm::parts_of_text;
use std::alloc::{AllocError, Global};

/// The names of a text's flows and links.
fn text_column<'a>(alloc: Global, text: &'a [u8]) -> Result<NameColumn<'a>, AllocError>
    requires { (p : ScenarioParts) × MeansScenario text.now p }
    ensures { IfOk result (IsTextColumn text.now) }
{
    match parts_of_text(alloc, text)? {
        Some(named) => Ok(NameColumn::of(named.flows, named.links)),
        None => unreachable!(),
    }
}

/// The column of names of an input's figures, where it is wished: an image has no names.
pub(crate) fn column_of<'a>(
    alloc: Global,
    wished: bool,
    input: &'a [u8],
) -> Result<NameColumn<'a>, AllocError>
    requires { (p : ScenarioParts) × InputHasScenario input.now p }
    ensures { IfOk result (IsColumnOf wished input.now) }
{
    if !wished {
        Ok(NameColumn::none(alloc))
    } else if input.starts_with(b"TCB") {
        Ok(NameColumn::of(Vec::new(alloc), Vec::new(alloc)))
    } else {
        text_column(alloc, input)
    }
}
