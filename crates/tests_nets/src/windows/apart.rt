//! A window's lines group by group: a merge of them from a moment on gives those of the same
//! window's batch from the first line on that is at the moment or past it.
ghost use Rattle.std.specs.Prelude.{◌≡◌, ◌≤◌, false, length};
ghost use Rattle.window_core.specs.Sheaves.{StandsIn};

use super::nets::{SIX_EACH, crossed, five_pairs, grouped, two_pairs};
use crate::nets::is_same;
use net_machine::Net;
use sim_time::Time;
use std::alloc::Global;
use std::process::Abort;
use window_core::{Batch, Cursor, Sheaf, Window};

// The index of the first line at a moment or past it; how many lines there are where there is none.
fn first_from(batch: &Batch, moment: Time) -> usize
    ensures { result ≤ length batch.now.lines }
{
    for index in 0..batch.len() {
        if batch.line(index).key.time >= moment {
            return index;
        }
    }
    batch.len()
}

// A cursor gives the batch's lines from an index up to another, and stands there.
fn gives(rt: &impl Abort, sheaf: &Sheaf, cursor: &mut Cursor, batch: &Batch, from: usize, to: usize)
    requires { StandsIn sheaf.now cursor.old }
    ensures { StandsIn sheaf.now cursor.new }
{
    for index in from..to {
        assert!(rt; cursor.at() == index && index < sheaf.len() && index < batch.len());
        is_same(rt, sheaf.next(cursor), batch.line(index));
    }
    assert_eq!(rt; cursor.at(), to);
}

// A cursor begins at a moment, and gives the lines from there on.
fn begins(rt: &impl Abort, sheaf: &Sheaf, cursor: &mut Cursor, batch: &Batch, moment: Time) {
    sheaf.begin_at(cursor, moment).expect(rt, "a beginning");
    gives(
        rt,
        sheaf,
        cursor,
        batch,
        first_from(batch, moment),
        batch.len(),
    );
}

// A cursor gives the batch's lines before a moment, up to an index, and then none.
fn gives_before(
    rt: &impl Abort,
    sheaf: &Sheaf,
    cursor: &mut Cursor,
    batch: &Batch,
    moment: Time,
    to: usize,
)
    requires { StandsIn sheaf.now cursor.old }
{
    for index in 0..to {
        assert!(rt; index < batch.len());
        let line = sheaf.next_before(cursor, moment).expect(rt, "a line");
        is_same(rt, line, batch.line(index));
    }
    assert!(rt; sheaf.next_before(cursor, moment).is_none());
    assert_eq!(rt; cursor.at(), to);
}

// A cursor gives the lines before a moment, from the first line on.
fn begins_before(rt: &impl Abort, sheaf: &Sheaf, cursor: &mut Cursor, batch: &Batch, moment: Time) {
    sheaf.begin_at(cursor, 0).expect(rt, "a beginning");
    gives_before(rt, sheaf, cursor, batch, moment, first_from(batch, moment));
}

// Four parts begin one behind the other, the first with the first line, each about as far along the lines as it should.
fn is_cut_evenly(rt: &impl Abort, sheaf: &Sheaf, batch: &Batch) {
    let mut moments = [Time::MAX; 4];
    sheaf.cut_into(&mut moments);
    assert_eq!(rt; moments[0], 0);
    for part in 1..4 {
        assert!(rt; moments[part - 1] <= moments[part]);
        let before = first_from(batch, moments[part]);
        let wanted = batch.len().saturating_mul(part) / 4;
        assert!(rt;
            before.abs_diff(wanted) <= batch.len() / 4 + 3,
            "{before} {wanted}"
        );
    }
}

// The sheaf has the batch's lines: from the beginning, from each line's moment and past it, and
// past all; and those before each of these moments.
fn has_lines(rt: &impl Abort, sheaf: &Sheaf, cursor: &mut Cursor, batch: &Batch) {
    assert_eq!(rt; sheaf.first(), batch.first());
    assert_eq!(rt; sheaf.len(), batch.len());
    assert_eq!(rt; sheaf.is_empty(), batch.is_empty());
    begins(rt, sheaf, cursor, batch, 0);
    for index in 0..batch.len() {
        let time = batch.line(index).key.time;
        begins(rt, sheaf, cursor, batch, time);
        begins(rt, sheaf, cursor, batch, time.saturating_add(1));
        begins_before(rt, sheaf, cursor, batch, time);
        begins_before(rt, sheaf, cursor, batch, time.saturating_add(1));
    }
    begins(rt, sheaf, cursor, batch, Time::MAX);
}

// Runs each group up to the window's end.
fn runs_groups(rt: &impl Abort, window: &mut Window)
    requires { window.old.out ≡ false }
    ensures { window.new.out ≡ false }
{
    for group in 0..window.groups() {
        assert!(rt; group < window.groups());
        window.run_group(group).ok().expect(rt, "a group that runs");
    }
}

// Takes a turn, with the lines as a batch.
fn turned(rt: &impl Abort, whole: &mut Window) -> Batch
    requires { whole.old.out ≡ false }
    ensures { whole.new.out ≡ false }
{
    whole.turn().ok().expect(rt, "a turn")
}

// Takes a turn, with the lines group by group.
fn turns_apart(rt: &impl Abort, apart: &mut Window, sheaf: &mut Sheaf)
    requires { apart.old.out ≡ false }
    ensures { apart.new.out ≡ false }
{
    apart.turn_apart(sheaf).ok().expect(rt, "a turn");
}

// The two windows stand at the same place.
fn stand_alike(rt: &impl Abort, apart: &Window, whole: &Window)
    requires apart { apart.now.out ≡ false }
    requires whole { whole.now.out ≡ false }
{
    assert_eq!(rt; apart.position(), whole.position());
    assert_eq!(rt; apart.end(), whole.end());
    assert_eq!(rt; apart.next(), whole.next());
}

// Takes the next window of two: of one group by group, of the other as a batch. The answer is
// whether there were lines.
fn turns_both(
    rt: &impl Abort,
    apart: &mut Window,
    whole: &mut Window,
    sheaf: &mut Sheaf,
    cursor: &mut Cursor,
) -> bool
    requires apart { apart.old.out ≡ false }
    requires whole { whole.old.out ≡ false }
    ensures apart { apart.new.out ≡ false }
    ensures whole { whole.new.out ≡ false }
{
    runs_groups(rt, apart);
    runs_groups(rt, whole);
    turns_apart(rt, apart, sheaf);
    let batch = turned(rt, whole);
    has_lines(rt, sheaf, cursor, &batch);
    // Of more groups than that each may have too few lines for one to be noted.
    if apart.groups() <= 8 {
        is_cut_evenly(rt, sheaf, &batch);
    }
    let reported = !batch.is_empty();
    drop(batch);
    stand_alike(rt, apart, whole);
    reported
}

// Takes all windows of two: of one group by group, of the other as batches. The answer is how many
// had lines.
fn windows_of_both(
    rt: &impl Abort,
    apart: &mut Window,
    whole: &mut Window,
    sheaf: &mut Sheaf,
    cursor: &mut Cursor,
) -> u64
    requires apart { apart.old.out ≡ false }
    requires whole { whole.old.out ≡ false }
{
    for count in 0..1_000u64 {
        if !turns_both(rt, apart, whole, sheaf, cursor) {
            return count;
        }
    }
    assert!(rt; false, "at most a thousand windows");
    0
}

// How many windows of a net, in these groups, had lines.
fn windows_with_lines(rt: &impl Abort, alloc: Global, net: Net, entries: &[u8]) -> u64 {
    let copied = net.copy().expect(rt, "a copy");
    let mut apart = grouped(rt, alloc, copied, entries);
    let mut whole = grouped(rt, alloc, net, entries);
    let mut sheaf = Sheaf::new(alloc, 0);
    let mut cursor = Cursor::new(alloc).expect(rt, "a cursor");
    let count = windows_of_both(rt, &mut apart, &mut whole, &mut sheaf, &mut cursor);
    drop(apart);
    drop(whole);
    drop(sheaf);
    drop(cursor);
    count
}

#[test]
fn cursors_give_the_lines_of_each_windows_batch(rt: HostRuntime) {
    let alloc = rt.alloc();
    let groups: [[u8; 5]; 4] = [[0, 1, 2, 3, 4], [0, 1, 0, 0, 0], [1, 0, 2, 0, 2], [0; 5]];
    for entries in &groups {
        let net = crossed(&rt, alloc, SIX_EACH);
        let windows = windows_with_lines(&rt, alloc, net, entries);
        assert!(rt; windows > 0);
    }
}

// Two groups with no link between them have one window, in which both have many lines of the same
// moments.
#[test]
fn cursors_begin_amid_the_lines_of_two_groups(rt: HostRuntime) {
    let alloc = rt.alloc();
    let windows = windows_with_lines(&rt, alloc, two_pairs(&rt, alloc), &[0, 0, 1, 1]);
    assert_eq!(rt; windows, 1);
    let windows = windows_with_lines(&rt, alloc, two_pairs(&rt, alloc), &[0, 1, 1, 0]);
    assert!(rt; windows > 1);
}

// Of ten groups the next lines are ranked by their keys, of fewer they are told apart by their moments.
#[test]
fn cursors_merge_the_lines_of_many_groups(rt: HostRuntime) {
    let alloc = rt.alloc();
    let each: [u8; 10] = [0, 1, 2, 3, 4, 5, 6, 7, 8, 9];
    let windows = windows_with_lines(&rt, alloc, five_pairs(&rt, alloc), &each);
    assert!(rt; windows > 1);
}
