//! Workers that go over all pieces of a board, and then make text.
ghost use Rattle.std.specs.Prelude.{◌≡◌, IfOk};
ghost use Rattle.std.specs.Arc.{arc_value};
ghost use Rattle.work_board.specs.Seats.{IsOf, HoldsNothing};
ghost use Rattle.window_text.specs.ResultTables.{IsTicketOf};
ghost use Rattle.window_text.specs.Parts.{AreRight};
ghost use Rattle.window_workers.specs.Sweeps.{IsSwept};
ghost use Rattle.window_workers.specs.TextStates.{CanMakeText, HasMadeText};

use crate::gate::Gate;
use crate::job::{Begin, Job, Tasks, serve};
use crate::text_state::TextState;
use crate::window_job::WindowJob;
use std::alloc::{AllocError, AllocFailed, Global};
use std::mem::replace;
use std::sync::{Arc, Wait};
use std::thread;
use std::thread::Threads;
use thread_pool::{ThreadPool, run_workers};
use window_core::Sheaf;
use window_text::{Parts, ResultTable, Sink, TextFormatter, Ticket};
use work_board::{Board, Seat};

/// The value, once its other owners are gone.
fn sole<T: Drop, R: Wait>(rt: &R, shared: Arc<T, Global>) -> T
    ensures { result ≡ arc_value shared }
{
    let mut shared = shared;
    for _ in rt.forever() {
        match Arc::try_unwrap(shared) {
            Ok(value) => return value,
            Err(still) => shared = still,
        }
        // The others let go of it without waiting for anybody, so it needs no wake-up.
        thread::yield_now();
    }
    unreachable!()
}

/// Is the first of a pool's workers, starts the others, and ends once all have gone.
pub(crate) fn keep_workers<R: Threads + Wait + Sync>(rt: &R, gate: &Gate, pool: &ThreadPool<Job>) {
    run_workers(rt, &|job: Job| job.carry_out(gate), pool);
}

/// Memory for a worker's text, that of the window before where there is some.
fn take_formatter(sheaf: &Sheaf, formatters: &mut Vec<TextFormatter>) -> TextFormatter
    requires { AreRight sheaf.now formatters.old.items }
    ensures { AreRight sheaf.now formatters.new.items }
{
    let alloc = *formatters.allocator();
    match formatters.pop() {
        Some(formatter) => formatter,
        None => TextFormatter::new(alloc),
    }
}

/// Gives each thread a job, with a formatter. The answer is the rest of the seat and of the ticket.
fn give_jobs<R: Wait>(
    rt: &R,
    job: &WindowJob,
    tasks: &Arc<Tasks, Global>,
    held: (Seat, Ticket),
    formatters: &mut Vec<TextFormatter>,
) -> (Seat, Ticket)
    requires board { IsOf (arc_value tasks.now).board held.0 }
    requires idle { HoldsNothing held.0 }
    requires ticket { IsTicketOf (arc_value tasks.now).result_table held.1 }
    requires right { AreRight (arc_value tasks.now).sheaf formatters.old.items }
    ensures board { IsOf (arc_value tasks.now).board result.0 }
    ensures idle { HoldsNothing result.0 }
    ensures ticket { IsTicketOf (arc_value tasks.now).result_table result.1 }
    ensures right { AreRight (arc_value tasks.now).sheaf formatters.new.items }
{
    let (mut seat, mut ticket) = held;
    let workers = job.workers;
    for thread in 0..workers.saturating_sub(1) {
        let (mine, theirs) = tasks.board.split(seat);
        seat = mine;
        let (kept, given) = tasks.result_table.split(ticket);
        ticket = kept;
        let begin = Begin {
            seat: theirs,
            ticket: given,
            // The last place has the formatter that is taken first: so each thread has its own one again.
            place: workers.saturating_sub(thread).saturating_sub(1),
            workers,
            formatter: take_formatter(&tasks.sheaf, formatters),
        };
        if let Ok(shared) = Arc::try_clone(tasks) {
            let _ = job.pool.give(rt, thread, Job::new(shared, begin));
        }
    }
    (seat, ticket)
}

/// Takes back what threads have not begun, and waits for what they have.
fn end_jobs<R: Wait>(rt: &R, job: &WindowJob) {
    for thread in 0..job.workers.saturating_sub(1) {
        if let Some(back) = job.pool.take_back(rt, thread) {
            back.carry_out(job.gate);
        }
    }
    job.pool.rest(rt);
}

/// Has workers go over the board and then make the text of a sheaf's lines: the calling thread is one of them, and
/// the others are threads of a pool. While they begin it writes the pending text. It waits for all of them, and gives
/// the board and its own seat back. The formatters are then what each made of the text.
pub(crate) fn sweep<R: Wait, S: Sink>(
    rt: &R,
    job: &WindowJob,
    laid: (Board, Seat),
    sheaf: &mut Sheaf,
    texts: &mut TextState<S>,
    sink: &mut S,
) -> Result<(Board, Seat), AllocError>
    requires board { IsOf laid.0 laid.1 }
    requires idle { HoldsNothing laid.1 }
    requires texts { CanMakeText S.contents S.failures sheaf.old texts.old sink.old }
    ensures same { IfOk result (λ r. r.0 ≡ laid.0) }
    ensures board { IfOk result (λ r. IsOf r.0 r.1) }
    ensures swept { IfOk result (λ r. IsSwept r.1) }
    ensures sheaf { sheaf.new ≡ sheaf.old }
    ensures texts { HasMadeText S.contents S.failures sheaf.old texts.old texts.new sink.new }
{
    let (board, seat) = laid;
    let alloc = job.alloc;
    let (result_table, ticket) = ResultTable::new(alloc, sheaf, job.workers)?;
    let parts = Parts::new(sheaf, job.workers);
    let lent = replace(sheaf, Sheaf::new(alloc, 0));
    let tasks = match Arc::new(
        alloc,
        Tasks {
            board,
            parts,
            sheaf: lent,
            result_table,
        },
    ) {
        Ok(tasks) => tasks,
        Err(AllocFailed { value }) => {
            *sheaf = value.sheaf;
            return Err(AllocError);
        }
    };
    let mut made = replace(&mut texts.text.formatters, Vec::new(alloc));
    let (seat, ticket) = give_jobs(rt, job, &tasks, (seat, ticket), &mut made);
    tasks.parts.cut(&tasks.sheaf);
    let _ = texts.pending_text.put(&texts.before, sink);
    let begin = Begin {
        seat,
        ticket,
        place: 0,
        workers: job.workers,
        formatter: take_formatter(&tasks.sheaf, &mut made),
    };
    let seat = serve(&tasks, job.gate, begin);
    end_jobs(rt, job);
    let Tasks {
        board,
        parts: _,
        sheaf: lent,
        result_table,
    } = sole(rt, tasks);
    result_table.clear(&mut made);
    texts.text.formatters = made;
    *sheaf = lent;
    Ok((board, seat))
}
