//! A scenario, written in another form.
ghost use Rattle.std.specs.Prelude.{◌≡◌};
ghost use Rattle.scenario_image.specs.Image.{image};
ghost use Rattle.scenario_image.specs.declared.version.Version.TheVariants.{Two};
ghost use Rattle.scenario_asm.specs.CanonicalText.{canonical_text};
ghost use Rattle.sessions.specs.Ended.{writes_after};
ghost use Rattle.sessions.specs.Output.{IsAllOrNothing};
ghost use Rattle.sessions.specs.Written.{Writes};

use crate::fault::SessionFault;
use crate::output::put_all;
use scenario_asm::disassemble;
use scenario_image::{Scenario, save};
use std::alloc::Global;
use window_engine::Sink;

/// Writes the image of a scenario, of version 2, once there is memory for all of it.
pub fn put_image<W: Sink>(
    alloc: Global,
    scenario: &Scenario,
    writer: &mut W,
) -> Result<(), SessionFault>
    ensures output { Writes (IsAllOrNothing (image Two scenario.now) result) (W.contents writer.old) (W.contents writer.new) }
    ensures failures { W.failures writer.new ≡ writes_after result (W.failures writer.old) }
{
    let bytes = save(alloc, scenario)?;
    put_all(writer, bytes.as_slice())?;
    Ok(())
}

/// Writes the canonical text of a scenario, once there is memory for all of it.
pub fn put_text<W: Sink>(
    alloc: Global,
    scenario: &Scenario,
    writer: &mut W,
) -> Result<(), SessionFault>
    ensures output { Writes (IsAllOrNothing (canonical_text scenario.now) result) (W.contents writer.old) (W.contents writer.new) }
    ensures failures { W.failures writer.new ≡ writes_after result (W.failures writer.old) }
{
    let text = disassemble(alloc, scenario)?;
    put_all(writer, text.as_slice())?;
    Ok(())
}
