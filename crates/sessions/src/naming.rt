//! How the nodes, links and flows of an input are called.
ghost use Rattle.std.specs.Prelude.{◌≡◌, IfOk};
ghost use Rattle.scenario_image.specs.declared.parts.ScenarioParts.{ScenarioParts};
ghost use Rattle.scenario_asm.specs.Meaning.{MeansScenario};
ghost use Rattle.prompt_words.specs.Namings.{limits_of};
ghost use Rattle.sessions.specs.Input.{InputHasScenario, is_image};
ghost use Rattle.sessions.specs.Namings.{IsTextNaming, IsNamingOf};

use prompt_words::{Limits, Naming};
use scenario_asm::parts_of_text;
use scenario_image::Scenario;
use std::alloc::{AllocError, Global};

/// The names that a text declares, and numbers below these.
fn text_naming(alloc: Global, text: &[u8], limits: Limits) -> Result<Naming, AllocError>
    requires { (p : ScenarioParts) × MeansScenario text.now p }
    ensures { IfOk result (IsTextNaming text.now limits) }
{
    match parts_of_text(alloc, text)? {
        Some(named) => Naming::of(alloc, limits, &named),
        None => unreachable!(),
    }
}

/// How the nodes, links and flows of an input are called: an image has numbers alone.
pub(crate) fn naming_of(
    alloc: Global,
    scenario: &Scenario,
    input: &[u8],
) -> Result<Naming, AllocError>
    requires { InputHasScenario input.now scenario.now }
    ensures { IfOk result (IsNamingOf input.now (limits_of scenario.now)) }
{
    let limits = Limits::of(scenario);
    if input.starts_with(b"TCB") {
        Ok(Naming::of_numbers(alloc, limits))
    } else {
        text_naming(alloc, input, limits)
    }
}
