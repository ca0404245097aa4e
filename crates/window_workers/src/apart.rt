//! A window's groups run by workers, apart from the window.
ghost use Rattle.std.specs.Prelude.{◌≡◌, ◌<◌, ◌≤◌, All, length, map as each, false, IfOk, IfErr, OnOk};
ghost use Rattle.window_core.specs.Group.{GroupValue};
ghost use Rattle.window_workers.specs.Edges.{StaysNet};
ghost use Rattle.window_workers.specs.Laid.{laid_for, HasRun, HasFullGroup};
ghost use Rattle.window_workers.specs.TextStates.{CanMakeText, HasMadeText};
ghost use Rattle.window_workers.specs.WindowOutcomes.{IsWorkersFault};

use crate::fault::WorkersFault;
use crate::pieces::run_pieces;
use crate::text_state::TextState;
use crate::window_job::WindowJob;
use sim_time::Time;
use std::alloc::{AllocError, Global};
use std::sync::Wait;
use window_core::{Group, Sheaf, Window};
use window_text::Sink;
use work_board::Piece;

/// A piece for each group.
fn pieces_of(alloc: Global, groups: Vec<Group>, end: Time) -> Result<Vec<Piece>, AllocError>
    requires { All (λ (g : GroupValue). end ≤ g.until) groups.items }
    ensures { IfOk result (λ v. v.items ≡ each (laid_for end) groups.items) }
{
    let mut pieces = Vec::with_capacity(alloc, groups.len())?;
    for group in groups {
        pieces.push_reserved(Piece::new(group, end));
    }
    Ok(pieces)
}

/// Takes the groups out, has workers, the calling thread and threads of a pool, run them up to the window's
/// end and then make the text of a sheaf's lines, and puts them back; the pending text is written meanwhile. After a
/// fault they are out.
pub(crate) fn run_apart<R: Wait, S: Sink>(
    rt: &R,
    job: &WindowJob,
    window: &mut Window,
    sheaf: &mut Sheaf,
    texts: &mut TextState<S>,
    sink: &mut S,
) -> Result<(), WorkersFault>
    requires inside { window.old.out ≡ false }
    requires least { 0 < length window.old.groups }
    requires few { length window.old.groups ≤ 64 }
    requires ends { All (λ (g : GroupValue). window.old.until ≤ g.until) window.old.groups }
    requires texts { CanMakeText S.contents S.failures sheaf.old texts.old sink.old }
    ensures done { OnOk result (HasRun window.old window.new) }
    ensures stays { StaysNet window.old window.new }
    ensures fault { IfErr result (IsWorkersFault job.now.workers (HasFullGroup window.old)) }
    ensures sheaf { sheaf.new ≡ sheaf.old }
    ensures texts { HasMadeText S.contents S.failures sheaf.old texts.old texts.new sink.new }
{
    let end = window.end();
    let pieces = pieces_of(job.alloc, window.take_groups(), end)?;
    let groups = run_pieces(rt, job, pieces, sheaf, texts, sink)?;
    window.put_groups(groups);
    Ok(())
}
