ghost use Rattle.std.specs.Prelude.{◌≡◌, ◌<◌, ◌≤◌, length, IfOk};
ghost use Rattle.work_board.specs.Seats.{IsOf, HoldsNothing};

mod laid;
mod refused;

use self::laid::{groups, laid, laid_out, whole};
use std::alloc::{AllocError, Global};
use std::process::Abort;
use std::sync::Wait;
use std::sync::atomic::AtomicU64;
use std::sync::atomic::Ordering::SeqCst;
use std::thread;
use std::thread::Threads;
use window_core::Group;
use work_board::{Board, Piece, Seat, Slot};

const ROUNDS: usize = 1_000;

const THREADS: usize = 16;

const TURNS: u64 = 10_000_000;

// Claims a piece, runs it and gives it back. Whether it could be claimed.
fn runs(board: &Board, seat: &mut Seat, i: usize) -> bool
    requires board { IsOf board.now seat.old }
    requires idle { HoldsNothing seat.old }
    requires piece { i < length board.now.pieces }
    ensures board { IsOf board.now seat.new }
    ensures idle { HoldsNothing seat.new }
{
    if !board.try_claim(seat, i) {
        return false;
    }
    seat.held(board, i).run();
    board.finish(seat, i);
    true
}

// Claims a piece, and holds it.
fn holds(rt: &impl Abort, board: &Board, seat: &mut Seat, i: usize)
    requires board { IsOf board.now seat.old }
    requires idle { HoldsNothing seat.old }
    requires piece { i < length board.now.pieces }
{
    let won = board.try_claim(seat, i);
    assert!(rt; won);
    assert!(rt; seat.held(board, i).fault().is_none());
}

// What became of the pieces of a board.
fn cleared(rt: &impl Abort, board: Board, seat: Seat) -> Vec<Slot>
    requires { IsOf board seat }
{
    board.clear(seat).ok().expect(rt, "slots")
}

// What became of a piece, by the letter with which the slot's name begins.
fn letter(slots: &[Slot], i: usize) -> Option<char> {
    match slots.get(i) {
        Some(Slot::Finished(_)) => Some('F'),
        Some(Slot::Waiting(_)) => Some('W'),
        Some(Slot::Out) => Some('O'),
        None => None,
    }
}

#[test]
fn reads_a_finish_back(rt: HostRuntime) {
    let (board, mut seat) = laid(&rt, rt.alloc(), 2);
    assert!(rt; board.pieces() == 3);
    let won = runs(&board, &mut seat, 0);
    let again = runs(&board, &mut seat, 0);
    let (seat, mut other) = board.split(seat);
    let late = runs(&board, &mut other, 0);
    assert!(rt; won && !again && !late);
    // It is held as the board ends.
    holds(&rt, &board, &mut other, 2);
    let slots = cleared(&rt, board, seat);
    assert_eq!(rt; slots.len(), 3);
    assert_eq!(rt; letter(&slots, 0), Some('F'));
    assert_eq!(rt; letter(&slots, 1), Some('W'));
    assert_eq!(rt; letter(&slots, 2), Some('O'));
    drop(slots);
    drop(other);
}

#[test]
fn runs_to_the_end_of_its_window(rt: HostRuntime) {
    let (group, end) = whole(&rt, rt.alloc());
    let mut piece = Piece::new(group, end);
    assert!(rt; !piece.is_done());
    piece.run();
    assert!(rt; piece.is_done() && piece.fault().is_none());
    let left = piece.into_group().next();
    assert!(rt; left.is_none());
}

#[test]
fn all_wait_at_first(rt: HostRuntime) {
    let (board, seat) = laid(&rt, rt.alloc(), 1);
    let slots = cleared(&rt, board, seat);
    assert_eq!(rt; slots.len(), 2);
    assert_eq!(rt; letter(&slots, 0), Some('W'));
    assert_eq!(rt; letter(&slots, 1), Some('W'));
    drop(slots);
}

// Tries the pieces in an order of its own, and answers how many it ran.
fn work(board: &Board, seat: Seat, start: usize) -> u64
    requires board { IsOf board.now seat }
    requires idle { HoldsNothing seat }
{
    let mut seat = seat;
    let mut won = 0u64;
    for turn in 0..64usize {
        let i = (start % 64 + turn * (start % 64 * 2 + 1)) % board.pieces();
        if runs(board, &mut seat, i) {
            won = won.saturating_add(1);
        }
    }
    won
}

// So many threads go over the pieces. The seat that is left comes back, with how many they ran.
fn all_work<R: Threads + Wait + Sync>(
    rt: &R,
    alloc: Global,
    board: &Board,
    seat: Seat,
) -> Result<(Seat, u64), AllocError>
    requires board { IsOf board.now seat }
    requires idle { HoldsNothing seat }
    ensures { IfOk result (λ r. IsOf board.now r.0) }
{
    thread::scope(
        thread::scope_env(),
        rt,
        move |scope| -> Result<(Seat, u64), AllocError>
            requires board { IsOf board.now seat }
            requires idle { HoldsNothing seat }
            ensures { IfOk result (λ r. IsOf board.entry.now r.0) }
        {
            let mut handles = Vec::with_capacity(alloc, THREADS)?;
            let mut mine = seat;
            for start in 0..THREADS {
                let (rest, theirs) = board.split(mine);
                mine = rest;
                let Ok(handle) = scope.spawn(
                    move || -> u64
                        requires board { IsOf board.now theirs }
                        requires idle { HoldsNothing theirs }
                    { work(board, theirs, start) },
                ) else {
                    return Err(AllocError);
                };
                handles.push(handle)?;
            }
            let mut won = 0u64;
            for handle in handles {
                won = won.saturating_add(handle.join(rt));
            }
            Ok((mine, won))
        },
    )
}

// What two threads tell each other.
trait Signals: Sync {
    fn raise(&self, which: bool);

    fn is_raised(&self, which: bool) -> bool;
}

#[derive(Drop)]
struct Raised {
    first: AtomicU64,
    second: AtomicU64,
}

impl Signals for Raised {
    fn raise(&self, which: bool) {
        let signal = if which { &self.first } else { &self.second };
        signal.store(1, SeqCst);
    }

    fn is_raised(&self, which: bool) -> bool {
        let signal = if which { &self.first } else { &self.second };
        signal.load(SeqCst) == 1
    }
}

// Whether the signal is raised within so many turns.
fn comes<G: Signals>(signals: &G, which: bool) -> bool {
    for _turn in 0..TURNS {
        if signals.is_raised(which) {
            return true;
        }
        thread::yield_now();
    }
    false
}

// Holds the piece 0 until the other has finished the piece 1.
fn waits<G: Signals>(board: &Board, seat: Seat, signals: &G) -> bool
    requires board { IsOf board.now seat }
    requires idle { HoldsNothing seat }
    requires two { 1 < length board.now.pieces }
{
    let mut seat = seat;
    if !board.try_claim(&mut seat, 0) {
        return false;
    }
    signals.raise(true);
    let came = comes(signals, false);
    seat.held(board, 0).run();
    board.finish(&mut seat, 0);
    came
}

// Claims and finishes the piece 1 while the other holds the piece 0.
fn goes_ahead<G: Signals>(board: &Board, seat: Seat, signals: &G) -> bool
    requires board { IsOf board.now seat }
    requires idle { HoldsNothing seat }
    requires two { 1 < length board.now.pieces }
{
    let mut seat = seat;
    let went = comes(signals, true) && runs(board, &mut seat, 1);
    signals.raise(false);
    went
}

fn both<R: Threads + Sync, G: Signals>(
    rt: &R,
    board: &Board,
    one: Seat,
    two: Seat,
    signals: &G,
) -> (bool, bool)
    requires one_of { IsOf board.now one }
    requires two_of { IsOf board.now two }
    requires one_idle { HoldsNothing one }
    requires two_idle { HoldsNothing two }
    requires two { 1 < length board.now.pieces }
{
    thread::join(
        rt,
        move || -> bool
            requires board { IsOf board.now one }
            requires idle { HoldsNothing one }
            requires two { 1 < length board.now.pieces }
        { waits(board, one, signals) },
        move || -> bool
            requires board { IsOf board.now two }
            requires idle { HoldsNothing two }
            requires two { 1 < length board.now.pieces }
        { goes_ahead(board, two, signals) },
    )
}

// The groups of the pieces that were finished.
fn finished(rt: &impl Abort, alloc: Global, slots: Vec<Slot>) -> Vec<Group> {
    let mut groups = Vec::new(alloc);
    for slot in slots {
        if let Slot::Finished(piece) = slot {
            groups.push(piece.into_group()).ok().expect(rt, "room");
        }
    }
    groups
}

// Lays a board of groups, and has threads go over it. How many pieces they ran, and the groups of those
// that were finished.
fn round<R: Threads + Wait + Sync + Abort>(
    rt: &R,
    alloc: Global,
    groups: Vec<Group>,
) -> (u64, Vec<Group>) {
    let (board, seat) = laid_out(rt, alloc, groups);
    let (seat, won) = all_work(rt, alloc, &board, seat).ok().expect(rt, "threads");
    (won, finished(rt, alloc, cleared(rt, board, seat)))
}

#[test]
fn each_piece_is_run_once(rt: HostRuntime) {
    let alloc = rt.alloc();
    let mut groups = groups(&rt, alloc, 63);
    for _round in 0..ROUNDS {
        let (won, left) = round(&rt, alloc, groups);
        assert_eq!(rt; (won, left.len()), (64, 64));
        groups = left;
    }
    drop(groups);
}

#[test]
fn a_held_piece_holds_nobody_up(rt: HostRuntime) {
    let (board, seat) = laid(&rt, rt.alloc(), 1);
    let (seat, one) = board.split(seat);
    let (seat, two) = board.split(seat);
    let signals = Raised {
        first: AtomicU64::new(0),
        second: AtomicU64::new(0),
    };
    let (waited, went) = both(&rt, &board, one, two, &signals);
    assert!(rt; waited && went);
    let slots = cleared(&rt, board, seat);
    assert_eq!(rt; letter(&slots, 0), Some('F'));
    assert_eq!(rt; letter(&slots, 1), Some('F'));
    drop(slots);
}
