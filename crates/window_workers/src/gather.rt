//! What came back of a board's pieces.
ghost use Rattle.std.specs.Prelude.{◌≡◌, ◌⊎◌, All, map as each, Some, None, IfOk, IfErr, OnOk};
ghost use Rattle.window_core.specs.Group.{AfterFirings};
ghost use Rattle.work_board.specs.Pieces.{PieceState};
ghost use Rattle.window_workers.specs.WindowOutcomes.{NoneWaits, SomeFull, slots_fault, finished_of};

use crate::fault::{WorkersFault, group_fault};
use std::alloc::Global;
use window_core::Group;
use work_board::Slot;

/// The groups of the pieces, where all came back and none is refused. A piece that did not come back is
/// told before a refusal, and of several refusals the first.
pub(crate) fn gather(alloc: Global, slots: Vec<Slot>) -> Result<Vec<Group>, WorkersFault>
    requires { NoneWaits slots.items }
    ensures ok { IfOk result (λ v. (slots_fault slots.items ≡ None) × (v.items ≡ each (λ (p : PieceState). p.group) (finished_of slots.items))) }
    ensures after { OnOk result (All (λ (p : PieceState). AfterFirings p.end p.began p.group) (finished_of slots.items)) }
    ensures err { IfErr result (λ e. (e ≡ WorkersFault.NoMemory) ⊎ (slots_fault slots.items ≡ Some e)) }
    ensures full { IfErr result (λ e. e ≡ WorkersFault.CountFull → SomeFull slots.items) }
{
    let Ok(mut groups) = Vec::with_capacity(alloc, slots.len()) else {
        return Err(WorkersFault::NoMemory);
    };
    let mut refusal = None;
    let mut any_out = false;
    for slot in slots {
        match slot {
            Slot::Finished(piece) => {
                refusal = refusal.or(piece.fault());
                groups.push_reserved(piece.into_group());
            }
            Slot::Waiting(_) => unreachable!(),
            Slot::Out => any_out = true,
        }
    }
    if any_out {
        return Err(WorkersFault::Failed);
    }
    match refusal {
        Some(fault) => Err(group_fault(fault)),
        None => Ok(groups),
    }
}
