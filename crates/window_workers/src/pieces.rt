//! A window's pieces, run by workers.
ghost use Rattle.std.specs.Prelude.{◌≡◌, ◌<◌, ◌≤◌, length, IfOk, IfErr};
ghost use Rattle.window_workers.specs.WindowOutcomes.{AllRan, IsPiecesFault, SomeLaidFull};
ghost use Rattle.window_workers.specs.TextStates.{CanMakeText, HasMadeText};

use crate::fault::WorkersFault;
use crate::gather::gather;
use crate::sweep::sweep;
use crate::text_state::TextState;
use crate::window_job::WindowJob;
use std::sync::Wait;
use window_core::{Group, Sheaf};
use window_text::Sink;
use work_board::{Board, Piece};

/// Runs the pieces by workers, the calling thread and threads of a pool, which then make the text of a sheaf's lines; the
/// pending text is written meanwhile. Then each piece is done, and its group comes back in its place. A refusal gives
/// them up.
pub(crate) fn run_pieces<R: Wait, S: Sink>(
    rt: &R,
    job: &WindowJob,
    pieces: Vec<Piece>,
    sheaf: &mut Sheaf,
    texts: &mut TextState<S>,
    sink: &mut S,
) -> Result<Vec<Group>, WorkersFault>
    requires least { 0 < length pieces.items }
    requires most { length pieces.items ≤ 64 }
    requires texts { CanMakeText S.contents S.failures sheaf.old texts.old sink.old }
    ensures done { IfOk result (λ v. AllRan pieces.items v.items) }
    ensures err { IfErr result (IsPiecesFault pieces.items) }
    ensures full { IfErr result (λ e. e ≡ WorkersFault.CountFull → SomeLaidFull pieces.items) }
    ensures sheaf { sheaf.new ≡ sheaf.old }
    ensures texts { HasMadeText S.contents S.failures sheaf.old texts.old texts.new sink.new }
{
    let Ok(laid) = Board::lay(job.alloc, pieces) else {
        return Err(WorkersFault::NoMemory);
    };
    let Ok((board, seat)) = sweep(rt, job, laid, sheaf, texts, sink) else {
        return Err(WorkersFault::NoMemory);
    };
    let Ok(slots) = board.clear(seat) else {
        return Err(WorkersFault::NoMemory);
    };
    gather(job.alloc, slots)
}
