//! The run of a scenario, shared out as the command line says.
ghost use Rattle.std.specs.Prelude.{◌≡◌, length, IfErr, IfOk};
ghost use Rattle.sessions.specs.Ended.{writes_after};
ghost use Rattle.sessions.specs.Nodes.{HasGroups, LacksGroups};
ghost use Rattle.sessions.specs.Output.{IsSharedOutput};
ghost use Rattle.sessions.specs.Written.{Writes};

use crate::fault::SessionFault;
use crate::groups::groups_for;
use crate::means::{Means, SessionTools};
use crate::trace::run_scenario;
use crate::workers::run_by_windows;
use command_line::notes::Notes;
use command_line::reasons::groups_reason;
use command_line::sharing::Sharing;
use scenario_image::Scenario;
use window_core::Partition;
use window_engine::{Hands, Sink};

/// So many groups that the program finds are worth their threads in the debugger.
const FEWEST_TO_DEBUG: usize = 3;

/// The groups in which the nodes of a scenario are. Tells why they are refused, where that is wished
/// and there is memory to say it.
pub(crate) fn reported_groups<N: Notes>(
    means: &Means,
    sharing: &Sharing,
    scenario: &Scenario,
    notes: &mut N,
) -> Result<Partition, SessionFault>
    ensures named { IfOk result (λ _. HasGroups sharing.now.groups scenario.now) }
    ensures nodes { IfOk result (λ partition. length partition ≡ length scenario.now.nodes) }
    ensures faults { IfErr result (LacksGroups sharing.now.groups scenario.now) }
{
    let found = groups_for(means.alloc, sharing, scenario);
    if means.wishes.explain && matches!(found, Err(SessionFault::Groups)) {
        let nodes = scenario.parts().nodes.len();
        if let Ok(shown) = groups_reason(means.alloc, sharing.groups(), nodes) {
            notes.refused(shown);
        }
    }
    found
}

/// The same for moves of the debugger. It makes no text that threads could share, and starts them for each window: two groups
/// that the program finds gain next to nothing there, and cost much where threads come late, so that the nodes stay
/// together.
pub(crate) fn groups_to_debug<N: Notes>(
    means: &Means,
    sharing: &Sharing,
    scenario: &Scenario,
    notes: &mut N,
) -> Result<Partition, SessionFault>
    ensures named { IfOk result (λ _. HasGroups sharing.now.groups scenario.now) }
    ensures nodes { IfOk result (λ partition. length partition ≡ length scenario.now.nodes) }
    ensures faults { IfErr result (LacksGroups sharing.now.groups scenario.now) }
{
    let partition = reported_groups(means, sharing, scenario, notes)?;
    if sharing.groups() == "auto" && partition.groups() < FEWEST_TO_DEBUG {
        return Ok(Partition::one(partition.nodes()));
    }
    Ok(partition)
}

/// Runs a scenario to its end, and writes its trace: one event at a time where there is one worker, or one group with
/// no second processor for its text, and else by windows.
pub(crate) fn put_trace<W: Sink, H: Hands, N: Notes>(
    tools: &SessionTools<H>,
    sharing: &Sharing,
    scenario: &Scenario,
    writer: &mut W,
    notes: &mut N,
) -> Result<(), SessionFault>
    requires { H.ready tools.now.hands.now }
    ensures output { Writes (IsSharedOutput sharing.now.groups scenario.now result) (W.contents writer.old) (W.contents writer.new) }
    ensures failures { W.failures writer.new ≡ writes_after result (W.failures writer.old) }
{
    let means = tools.means;
    let partition = reported_groups(means, sharing, scenario, notes)?;
    let workers = sharing.workers();
    let is_alone = workers == 1 || (partition.groups() < 2 && tools.hands.processors() < 2);
    if is_alone {
        return run_scenario(means.alloc, means.wishes, scenario, writer, notes);
    }
    run_by_windows(tools, workers, scenario, partition, writer, notes)
}
