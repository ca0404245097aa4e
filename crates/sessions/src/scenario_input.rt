//! From the bytes of an input, an image or a text, to its scenario.
ghost use Rattle.sessions.specs.Input.{IsImageOf, IsImageFault, IsTextFault, InputHasScenario, InputHasFault, Reads};
ghost use Rattle.scenario_asm.specs.Meaning.{MeansScenario};

use crate::fault::SessionFault;
use crate::means::Means;
use crate::why::tell_why;
use command_line::notes::Notes;
use scenario_asm::assemble;
use scenario_image::{Scenario, load};
use std::alloc::Global;

/// The scenario of an image.
fn read_image(alloc: Global, bytes: &[u8]) -> Result<Scenario, SessionFault>
    ensures { Reads (IsImageOf bytes.now) (IsImageFault bytes.now) result }
{
    let scenario = load(alloc, bytes)?;
    // What has parts is a scenario.
    let _parts = scenario.parts();
    Ok(scenario)
}

/// The scenario that a text means.
fn read_text(alloc: Global, text: &[u8]) -> Result<Scenario, SessionFault>
    ensures { Reads (MeansScenario text.now) (IsTextFault text.now) result }
{
    let scenario = assemble(alloc, text)?;
    Ok(scenario)
}

/// The scenario of an input: what begins with the bytes `TCB` is an image, and any other a text.
pub fn read_scenario(alloc: Global, input: &[u8]) -> Result<Scenario, SessionFault>
    ensures { Reads (InputHasScenario input.now) (InputHasFault input.now) result }
{
    if input.starts_with(b"TCB") {
        read_image(alloc, input)
    } else {
        read_text(alloc, input)
    }
}

/// The scenario of an input. Tells why it is refused, where that is wished and there is memory to say
/// it.
pub(crate) fn reported_scenario<N: Notes>(
    means: &Means,
    input: &[u8],
    notes: &mut N,
) -> Result<Scenario, SessionFault>
    ensures { Reads (InputHasScenario input.now) (InputHasFault input.now) result }
{
    let read = read_scenario(means.alloc, input);
    if let Err(fault) = &read {
        tell_why(means, input, fault, notes);
    }
    read
}

/// The scenario that a text means. Tells why it is refused, where that is wished and there is memory
/// to say it.
pub(crate) fn reported_text<N: Notes>(
    means: &Means,
    text: &[u8],
    notes: &mut N,
) -> Result<Scenario, SessionFault>
    ensures { Reads (MeansScenario text.now) (IsTextFault text.now) result }
{
    let read = read_text(means.alloc, text);
    if let Err(fault) = &read {
        tell_why(means, text, fault, notes);
    }
    read
}
