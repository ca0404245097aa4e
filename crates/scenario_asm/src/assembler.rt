//! From a text to a scenario.
ghost use Rattle.std.specs.Prelude.{◌≡◌, ◌⊎◌, ℕ, IfOk, IsErrOf};
ghost use Rattle.scenario_image.specs.declared.parts.ScenarioParts.{ScenarioParts};
ghost use Rattle.scenario_asm.specs.declared.fault.Fault.{Fault};
ghost use Rattle.scenario_asm.specs.Meaning.{MeansScenario, MeansFault};

use crate::draft::Draft;
use crate::fault::AsmFault;
use crate::lines::read_lines;
use scenario_image::Scenario;
use std::alloc::Global;

/// The scenario that a text means.
pub fn assemble(alloc: Global, text: &[u8]) -> Result<Scenario, AsmFault>
    ensures scenario { IfOk result (MeansScenario text.now) }
    ensures only_scenario { (parts : ScenarioParts) → MeansScenario text.now parts → (result ≡ Ok parts) ⊎ (result ≡ Err AsmFault.NoMemory) }
    ensures fault { (number : ℕ) (fault : Fault) → IsErrOf result (AsmFault.At number fault) → MeansFault text.now number fault }
    ensures only_fault { (number : ℕ) (fault : Fault) → MeansFault text.now number fault → (result ≡ Err (AsmFault.At number fault)) ⊎ (result ≡ Err AsmFault.NoMemory) }
{
    let mut draft = Draft::new(alloc);
    match read_lines(alloc, text, &mut draft)? {
        Some(refused) => Err(AsmFault::At {
            line: refused.number,
            fault: refused.refusal.fault(),
        }),
        None => draft.finish(alloc),
    }
}
