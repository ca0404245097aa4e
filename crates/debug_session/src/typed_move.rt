//! What a move that is typed answers.
ghost use Rattle.std.specs.Prelude.{◌≡◌, ◌≢◌, ◌+◌, ◌++◌, None, codes, decimal, IfOk, OnOk};
ghost use Rattle.table_run.specs.State.{due};
ghost use Rattle.std.specs.List.{concat};
ghost use Rattle.debugger.specs.Moves.{HasPosition};
ghost use Rattle.debugger.specs.Passed.{texts_between};
ghost use Rattle.debug_session.specs.Answers.{session_state};
ghost use Rattle.debug_session.specs.Reported.{passed_count, shown_stretch, reported_hit, reported_origin, AddsPlace, AddsMove};
ghost use Rattle.debug_session.specs.TypedMoves.{present_time, named_origin, lowest, passed, more_line, last_ten, idle_line, passed_lines, end_words, place_line, hit_line, next_text, known_line, where_text, last_lines};

use breakpoints::Hit;
use debugger::{Debugger, LastEvent, LineOrder, MoveFault, Stretch};
use flow_waits::ScenarioNames;
use prompt_words::{
    Extent, Naming, Report, append_counted, append_number, append_numbered, append_part,
};
use sim_time::Time;
use std::alloc::AllocError;

/// The most lines that a move shows.
const MOST_SHOWN: u64 = 10;

/// The position behind which the lines of a move backwards begin. Past a bound a breakpoint is told, and
/// then its line is among them.
fn lowest(bound: u64, to: u64) -> u64
    ensures { result ≡ lowest bound to }
{
    if bound < to { to - 1 } else { to }
}

/// The lines that a move from one position to another shows, where those of one backwards begin behind
/// a lowest position.
fn shown_stretch(from: u64, low: u64, to: u64) -> Stretch
    ensures { result ≡ shown_stretch from low to }
{
    if from < to {
        let count = (to - from).min(MOST_SHOWN);
        Stretch {
            from: to - count,
            count,
            order: LineOrder::Rising,
        }
    } else {
        Stretch {
            from: low,
            count: from.saturating_sub(low).min(MOST_SHOWN),
            order: LineOrder::Falling,
        }
    }
}

/// How many lines a move has.
fn passed_count(from: u64, low: u64, to: u64) -> u64
    ensures { result ≡ passed_count from low to }
{
    if from < to {
        to - from
    } else {
        from.saturating_sub(low)
    }
}

// Appends how many lines there are beside ten.
fn append_more(out: &mut Vec<u8>, count: u64) -> Result<(), MoveFault>
    ensures { OnOk result (out.new.items ≡ out.old.items ++ more_line count) }
{
    if MOST_SHOWN < count {
        out.extend_from_slice(b".. ")?;
        append_number(out, count - MOST_SHOWN)?;
        out.extend_from_slice(b" more\n")?;
        Ok(())
    } else {
        Ok(())
    }
}

/// Appends the last ten lines of a move from a position, and before them how many more there are.
#[tactic(none)]
fn append_passed(
    out: &mut Vec<u8>,
    debugger: &mut Debugger,
    from: u64,
    bound: u64,
) -> Result<(), MoveFault>
    requires { HasPosition debugger.old.start from }
    ensures ok { OnOk result (out.new.items ≡ out.old.items ++ last_ten (passed debugger.old.start from bound debugger.old.shown.position)) }
    ensures same { debugger.new ≡ debugger.old }
{
    let to = debugger.position();
    let low = lowest(bound, to);
    let stretch = shown_stretch(from, low, to);
    match append_more(out, passed_count(from, low, to)) {
        Ok(()) => debugger.append_lines(&stretch, out),
        Err(fault) => Err(fault),
    }
}

// Appends that nothing was done.
fn append_nothing(out: &mut Vec<u8>, time: u64) -> Result<(), MoveFault>
    ensures { OnOk result (out.new.items ≡ out.old.items ++ (codes "nothing was done: no event before " ++ (decimal time ++ codes " ns is left\n"))) }
{
    append_counted(
        out,
        b"nothing was done: no event before ",
        time,
        b" ns is left\n",
    )?;
    Ok(())
}

/// Appends that `until` did nothing, where it did not.
fn append_idle(out: &mut Vec<u8>, until: Option<u64>, from: u64, to: u64) -> Result<(), MoveFault>
    ensures { OnOk result (out.new.items ≡ out.old.items ++ idle_line until from to) }
{
    match until {
        None => Ok(()),
        Some(time) => {
            if from == to {
                append_nothing(out, time)
            } else {
                Ok(())
            }
        }
    }
}

/// Appends what a move from a position passed.
#[tactic(none)]
fn append_lines(
    out: &mut Vec<u8>,
    debugger: &mut Debugger,
    from: u64,
    report: Report,
) -> Result<(), MoveFault>
    requires { HasPosition debugger.old.start from }
    ensures ok { OnOk result (out.new.items ≡ out.old.items ++ passed_lines debugger.old.start from report debugger.old.shown.position) }
    ensures same { debugger.new ≡ debugger.old }
{
    let to = debugger.position();
    match append_idle(out, report.until, from, to) {
        Ok(()) => append_passed(out, debugger, from, report.bound),
        Err(fault) => Err(fault),
    }
}

// The words behind the moment of an event: whether the run ends or begins at a position.
fn end_words(position: u64, at_end: bool) -> &'static [u8]
    ensures { result.now ≡ end_words position at_end }
{
    if at_end {
        b" ns, the end\n"
    } else if position == 0 {
        b" ns, the beginning\n"
    } else {
        b" ns\n"
    }
}

// Appends a position, the moment of the event before it, and whether the run ends or begins there.
fn append_place(out: &mut Vec<u8>, position: u64, time: u64, at_end: bool) -> Result<(), MoveFault>
    ensures { OnOk result (out.new.items ≡ out.old.items ++ place_line position time at_end) }
{
    append_counted(out, b"at ", position, b" of the run, time ")?;
    append_counted(out, b"", time, end_words(position, at_end))?;
    Ok(())
}

// Appends the line of a breakpoint, where one matches.
fn append_hit(out: &mut Vec<u8>, naming: &Naming, hit: Option<Hit>) -> Result<(), MoveFault>
    ensures { OnOk result (out.new.items ≡ out.old.items ++ hit_line naming.now hit) }
{
    match hit {
        Some(hit) => {
            append_numbered(out, naming, b"break ", hit.number, hit.breakpoint, hit.was)?;
            Ok(())
        }
        None => Ok(()),
    }
}

/// The breakpoint that is told at a position: none up to a bound, which is where the move began
/// unless a breakpoint stops it backwards too.
fn reported_hit(bound: u64, position: u64, hit: Option<Hit>) -> Option<Hit>
    ensures { result ≡ reported_hit bound position hit }
{
    if bound < position { hit } else { None }
}

// Appends the node of an event, and its flow, or the link that becomes free.
fn append_origin(
    out: &mut Vec<u8>,
    names: &ScenarioNames,
    event: LastEvent,
) -> Result<(), AllocError>
    ensures { OnOk result (out.new.items ≡ out.old.items ++ named_origin names.now event.node event.flow event.link) }
{
    out.extend_from_slice(b"of node ")?;
    names.nodes.append_name(event.node, out)?;
    append_part(out, b", flow ", &names.flows, event.flow)?;
    append_part(out, b", link ", &names.links, event.link)?;
    out.extend_from_slice(b"\n")
}

// Appends where the last event comes from, past a bound and where the parts have names.
fn append_named_origin(
    out: &mut Vec<u8>,
    naming: &Naming,
    bound: u64,
    position: u64,
    event: LastEvent,
) -> Result<(), AllocError>
    ensures { OnOk result (out.new.items ≡ out.old.items ++ reported_origin naming.now bound position event) }
{
    if bound < position && !naming.names.nodes.is_empty() {
        append_origin(out, &naming.names, event)
    } else {
        Ok(())
    }
}

/// Appends a position with the event before it, and past a bound where that event comes from and the breakpoint that
/// matches there.
fn append_event(
    out: &mut Vec<u8>,
    naming: &Naming,
    bound: u64,
    position: u64,
    event: LastEvent,
    at_end: bool,
) -> Result<(), MoveFault>
    ensures { OnOk result (out.new.items ≡ out.old.items ++ (reported_origin naming.now bound position event ++ (place_line position event.time at_end ++ hit_line naming.now (reported_hit bound position event.hit)))) }
{
    append_named_origin(out, naming, bound, position, event)?;
    append_place(out, position, event.time, at_end)?;
    append_hit(out, naming, reported_hit(bound, position, event.hit))
}

/// Appends where a session stands, and past a bound the breakpoint that matches there.
#[tactic(none)]
fn append_where(
    out: &mut Vec<u8>,
    debugger: &mut Debugger,
    naming: &Naming,
    bound: u64,
) -> Result<(), MoveFault>
    ensures ok { OnOk result (AddsPlace naming.now debugger.old.start bound (session_state debugger.old) out.old.items out.new.items) }
    ensures same { debugger.new ≡ debugger.old }
{
    let at_end = debugger.is_at_end();
    let position = debugger.position();
    if position == 0 {
        append_place(out, 0, 0, at_end)
    } else {
        match debugger.last_event() {
            Ok(event) => append_event(out, naming, bound, position, event, at_end),
            Err(fault) => Err(fault),
        }
    }
}

/// The moment of the last event; before the first event it is 0.
#[tactic(none)]
pub(crate) fn present_time(debugger: &mut Debugger) -> Result<Time, MoveFault>
    ensures ok { IfOk result (λ time. time ≡ present_time debugger.old.start debugger.old.shown.position) }
    ensures same { debugger.new ≡ debugger.old }
{
    if debugger.position() == 0 {
        Ok(0)
    } else {
        match debugger.last_event() {
            Ok(event) => Ok(event.time),
            Err(fault) => Err(fault),
        }
    }
}

/// Appends what a move from a position answers.
#[tactic(none)]
pub(crate) fn append_move(
    out: &mut Vec<u8>,
    debugger: &mut Debugger,
    naming: &Naming,
    from: u64,
    report: Report,
) -> Result<(), MoveFault>
    requires { HasPosition debugger.old.start from }
    ensures ok { OnOk result (AddsMove naming.now debugger.old.start from report (session_state debugger.old) out.old.items out.new.items) }
    ensures same { debugger.new ≡ debugger.old }
{
    match append_lines(out, debugger, from, report) {
        Ok(()) => append_where(out, debugger, naming, report.bound),
        Err(fault) => Err(fault),
    }
}

// Appends the line that the next event gives, which is run on a copy.
#[tactic(none)]
fn append_due(out: &mut Vec<u8>, debugger: &mut Debugger) -> Result<(), MoveFault>
    requires { due debugger.old.shown.state ≢ None }
    ensures ok { OnOk result (out.new.items ≡ out.old.items ++ concat (texts_between debugger.old.start debugger.old.shown.position (debugger.old.shown.position + 1))) }
    ensures same { debugger.new ≡ debugger.old }
{
    let stretch = Stretch {
        from: debugger.position(),
        count: 1,
        order: LineOrder::Rising,
    };
    debugger.append_lines(&stretch, out)
}

// Appends a short text.
fn append_text(out: &mut Vec<u8>, text: &[u8]) -> Result<(), MoveFault>
    ensures { OnOk result (out.new.items ≡ out.old.items ++ text.now) }
{
    out.extend_from_slice(text)?;
    Ok(())
}

/// Appends the line that the next event gives, or that none is due.
#[tactic(none)]
fn append_next(out: &mut Vec<u8>, debugger: &mut Debugger) -> Result<(), MoveFault>
    ensures ok { OnOk result (out.new.items ≡ out.old.items ++ next_text debugger.old.start debugger.old.shown) }
    ensures same { debugger.new ≡ debugger.old }
{
    if debugger.is_at_end() {
        append_text(out, b"next: none\n")
    } else {
        match append_text(out, b"next: ") {
            Ok(()) => append_due(out, debugger),
            Err(fault) => Err(fault),
        }
    }
}

/// Appends how far the run is known to go.
fn append_known(out: &mut Vec<u8>, known: Extent) -> Result<(), MoveFault>
    ensures { OnOk result (out.new.items ≡ out.old.items ++ known_line known) }
{
    let words = if known.ends {
        b"known to end at ".as_slice()
    } else {
        b"known to go to ".as_slice()
    };
    out.extend_from_slice(words)?;
    append_number(out, known.upto)?;
    out.extend_from_slice(b"\n")?;
    Ok(())
}

/// Appends what is to come: the next event, and how far the run is known to go.
#[tactic(none)]
fn append_ahead(out: &mut Vec<u8>, debugger: &mut Debugger, known: Extent) -> Result<(), MoveFault>
    ensures ok { OnOk result (out.new.items ≡ out.old.items ++ (next_text debugger.old.start debugger.old.shown ++ known_line known)) }
    ensures same { debugger.new ≡ debugger.old }
{
    match append_next(out, debugger) {
        Ok(()) => append_known(out, known),
        Err(fault) => Err(fault),
    }
}

/// Appends what `where` answers.
#[tactic(none)]
pub(crate) fn append_whereabouts(
    out: &mut Vec<u8>,
    debugger: &mut Debugger,
    naming: &Naming,
    known: Extent,
) -> Result<(), MoveFault>
    ensures ok { OnOk result (out.new.items ≡ out.old.items ++ where_text debugger.old.start debugger.old.shown known) }
    ensures same { debugger.new ≡ debugger.old }
{
    let here = debugger.position();
    match append_where(out, debugger, naming, here) {
        Ok(()) => append_ahead(out, debugger, known),
        Err(fault) => Err(fault),
    }
}

/// Appends the last so many lines of the trace.
#[tactic(none)]
pub(crate) fn append_last(
    out: &mut Vec<u8>,
    debugger: &mut Debugger,
    count: u64,
) -> Result<(), MoveFault>
    ensures ok { OnOk result (out.new.items ≡ out.old.items ++ last_lines debugger.old.start debugger.old.shown.position count) }
    ensures same { debugger.new ≡ debugger.old }
{
    let position = debugger.position();
    let from = position.saturating_sub(count);
    let stretch = Stretch {
        from,
        count: position - from,
        order: LineOrder::Rising,
    };
    debugger.append_lines(&stretch, out)
}
