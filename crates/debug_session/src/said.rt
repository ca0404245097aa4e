//! The answer to a command.
ghost use Rattle.std.specs.Prelude.{◌≡◌, ◌<◌, ◌≤◌, ◌+◌, ◌++◌, [], OnOk, MatchResult, length, drop, decimal};
ghost use Rattle.trace_text.specs.Dump.{dump_bytes};
ghost use Rattle.debugger.specs.Moves.{HasPosition};
ghost use Rattle.prompt_words.specs.Refusals.{answer_of, answer_text};
ghost use Rattle.debug_session.specs.Answers.{session_state, break_line, clear_line};
ghost use Rattle.breakpoints.specs.Seen.{read_left_in};
ghost use Rattle.prompt_words.specs.Displays.{present_line, display_listing, displays_from, undisplayed_line};
ghost use Rattle.debug_session.specs.Readouts.{now_of, was_of, present, TellsBehind};
ghost use Rattle.prompt_words.specs.Numbered.{set_line, deleted_line, listing};
ghost use Rattle.debug_session.specs.TypedMoves.{TellsPast};
ghost use Rattle.debug_session.specs.TypedAnswers.{Tells};

use crate::display_text::{append_display, append_displays, append_undisplayed};
use crate::readout::Readout;
use crate::shown::append_shown;
use crate::typed_move::{append_move, present_time};
use breakpoints::{Break, Reading};
use debugger::Debugger;
use flow_waits::ScenarioNames;
use itoa::write_digits;
use prompt_words::{DisplayItem, Naming, Refusal, Report, Shown, append_listing, append_numbered};
use sim_time::Time;
use std::alloc::{AllocError, Global};
use std::marker::Model;

/// The room for a short answer, in bytes.
const ROOM: usize = 768;

/// The answer to a command, seen as its bytes. Short answers take no memory.
#[derive(Drop)]
pub struct Said {
    /// A dump.
    dump: Vec<u8>,
    /// Any other answer, at the end.
    short: [u8; ROOM],
    /// Where that begins.
    start: usize,
    /// Whether it is the answer.
    is_short: bool,
}

impl Model for Said {
    ghost use Rattle.std.specs.Prelude.{◌≡◌, ◌≤◌, ℕ, List, if◌then◌else◌, drop, length};

    ghost Value = { List ℕ };

    ghost view = { λ s. if s.is_short then drop s.start s.short else s.dump.items };

    ghost invariant = { λ s. (s.start ≤ 768) × (length s.short ≡ 768) };
}

// Writes a text so that it ends at `end`, and answers where it starts.
fn put_text<const N: usize>(bytes: &mut [u8], end: usize, text: &[u8; N]) -> usize
    requires within { end ≤ length bytes.old }
    requires room { N ≤ end }
    ensures written { drop result bytes.new ≡ text.now ++ drop end bytes.old }
    ensures start { result + N ≡ end }
{
    let start = end - N;
    bytes[start..end].copy_from_slice(text);
    start
}

// Writes a number so that it ends at `end`, and answers where it starts.
fn put_count(bytes: &mut [u8], end: usize, n: usize) -> usize
    requires within { end ≤ length bytes.old }
    requires room { 20 ≤ end }
    ensures written { drop result bytes.new ≡ decimal n ++ drop end bytes.old }
    ensures short { end ≤ result + 20 }
{
    write_digits(n as u64, bytes, end)
}

impl Said {
    /// An empty answer. What it will hold takes its memory from `alloc`.
    pub fn new(alloc: Global) -> Said
        ensures { result ≡ [] }
    {
        Said {
            dump: Vec::new(alloc),
            short: [0; ROOM],
            start: ROOM,
            is_short: true,
        }
    }

    /// The answer's bytes.
    pub fn as_slice(&self) -> &[u8]
        ensures { result.now ≡ self.now }
    {
        if self.is_short {
            &self.short[self.start..]
        } else {
            self.dump.as_slice()
        }
    }

    /// What is put out where a command was answered so, and refusals are told among the answers.
    pub fn text_of(&self, answered: Result<(), Refusal>) -> &[u8]
        ensures { result.now ≡ answer_text (answer_of answered self.now) }
    {
        match answered {
            Ok(()) => self.as_slice(),
            Err(refusal) => refusal.line(),
        }
    }

    /// Answers nothing.
    pub fn clear(&mut self)
        ensures { self.new ≡ [] }
    {
        self.start = ROOM;
        self.is_short = true;
    }

    /// Answers a short text.
    fn say<const N: usize>(&mut self, text: &[u8; N])
        requires { N ≤ 768 }
        ensures { self.new ≡ text.now }
    {
        let mut line = [0; ROOM];
        self.start = put_text(&mut line, ROOM, text);
        self.short = line;
        self.is_short = true;
    }

    /// Answers that all breakpoints are taken away.
    pub fn say_cleared(&mut self)
        ensures { self.new ≡ clear_line }
    {
        self.say(b"clear\n");
    }

    /// Answers how many breakpoints are set.
    pub fn say_set(&mut self, count: usize)
        ensures { self.new ≡ break_line count }
    {
        let mut line = [0; ROOM];
        let at = put_text(&mut line, ROOM, b"\n");
        let at = put_count(&mut line, at, count);
        let start = put_text(&mut line, at, b"break ");
        self.short = line;
        self.start = start;
        self.is_short = true;
    }

    /// Answers a breakpoint with its number.
    pub(crate) fn say_break(
        &mut self,
        naming: &Naming,
        number: u64,
        b: Break,
    ) -> Result<(), Refusal>
        ensures { MatchResult result (λ _. self.new ≡ set_line naming.now number b) (λ why. why ≡ Refusal.M) }
    {
        self.dump.clear();
        self.is_short = false;
        append_numbered(
            &mut self.dump,
            naming,
            b"break ",
            number,
            b,
            Reading::Nothing,
        )?;
        Ok(())
    }

    /// Answers that a breakpoint is taken away, with the number that it had.
    pub(crate) fn say_deleted(
        &mut self,
        naming: &Naming,
        number: u64,
        b: Break,
    ) -> Result<(), Refusal>
        ensures { MatchResult result (λ _. self.new ≡ deleted_line naming.now number b) (λ why. why ≡ Refusal.M) }
    {
        self.dump.clear();
        self.is_short = false;
        append_numbered(
            &mut self.dump,
            naming,
            b"deleted ",
            number,
            b,
            Reading::Nothing,
        )?;
        Ok(())
    }

    /// Answers a line for each breakpoint.
    pub(crate) fn say_breaks(&mut self, naming: &Naming, breaks: &[Break]) -> Result<(), Refusal>
        ensures { MatchResult result (λ _. self.new ≡ listing naming.now breaks.now) (λ why. (why ≡ Refusal.M) × (0 < length breaks.now)) }
    {
        if breaks.is_empty() {
            self.say(b"no breakpoint\n");
            return Ok(());
        }
        self.dump.clear();
        self.is_short = false;
        append_listing(&mut self.dump, naming, breaks)?;
        Ok(())
    }

    /// Answers a move from a position.
    pub(crate) fn say_move(
        &mut self,
        debugger: &mut Debugger,
        naming: &Naming,
        from: u64,
        report: Report,
    ) -> Result<(), Refusal>
        requires { HasPosition debugger.old.start from }
        ensures reported { MatchResult result (λ _. TellsPast naming.now debugger.old.start from report (session_state debugger.old) self.new) (λ why. why ≡ Refusal.M) }
        ensures same { debugger.new ≡ debugger.old }
    {
        self.dump.clear();
        self.is_short = false;
        match append_move(&mut self.dump, debugger, naming, from, report) {
            Ok(()) => Ok(()),
            Err(_) => Err(Refusal::M),
        }
    }

    /// Answers the dump of the state that is shown.
    pub(crate) fn say_state(&mut self, debugger: &Debugger) -> Result<(), Refusal>
        ensures { MatchResult result (λ _. self.new ≡ dump_bytes debugger.now.shown) (λ why. why ≡ Refusal.M) }
    {
        self.dump.clear();
        self.is_short = false;
        debugger.state_text(&mut self.dump)?;
        Ok(())
    }

    /// Answers a line for each display, with the values that they have at a moment.
    pub(crate) fn say_displays(
        &mut self,
        debugger: &Debugger,
        names: &ScenarioNames,
        time: Time,
        displays: &[DisplayItem],
    ) -> Result<(), Refusal>
        ensures { MatchResult result (λ _. self.new ≡ display_listing names.now (present debugger.now time) displays.now) (λ why. why ≡ Refusal.M) }
    {
        if displays.is_empty() {
            self.say(b"no display\n");
            return Ok(());
        }
        let readout = Readout {
            debugger,
            left: None,
            time,
        };
        self.dump.clear();
        self.is_short = false;
        append_displays(&mut self.dump, names, &readout, displays)?;
        Ok(())
    }

    /// Answers the display of a number, with the values that it has at a moment.
    pub(crate) fn say_display(
        &mut self,
        debugger: &Debugger,
        names: &ScenarioNames,
        time: Time,
        number: u64,
        item: DisplayItem,
    ) -> Result<(), Refusal>
        ensures { MatchResult result (λ _. self.new ≡ present_line names.now (present debugger.now time) number item) (λ why. why ≡ Refusal.M) }
    {
        let readout = Readout {
            debugger,
            left: None,
            time,
        };
        self.dump.clear();
        self.is_short = false;
        append_display(&mut self.dump, names, &readout, number, item)?;
        Ok(())
    }

    /// Answers that a display is taken away.
    pub(crate) fn say_undisplayed(
        &mut self,
        names: &ScenarioNames,
        number: u64,
        item: DisplayItem,
    ) -> Result<(), Refusal>
        ensures { MatchResult result (λ _. self.new ≡ undisplayed_line names.now number item) (λ why. why ≡ Refusal.M) }
    {
        self.dump.clear();
        self.is_short = false;
        append_undisplayed(&mut self.dump, names, number, item)?;
        Ok(())
    }

    // Answers a line for each display behind what is answered already.
    fn say_more(
        &mut self,
        names: &ScenarioNames,
        readout: &Readout<'_>,
        displays: &[DisplayItem],
    ) -> Result<(), AllocError>
        ensures { OnOk result (self.new ≡ self.old ++ displays_from names.now (was_of readout.now) (now_of readout.now) 1 displays.now) }
    {
        if self.is_short {
            let short = self.short;
            let start = self.start;
            self.dump.clear();
            self.dump.extend_from_slice(&short[start..])?;
            self.is_short = false;
        }
        append_displays(&mut self.dump, names, readout, displays)
    }

    // The same of the state that a debugger shows, and the one that its last move left.
    fn say_compared(
        &mut self,
        debugger: &Debugger,
        names: &ScenarioNames,
        displays: &[DisplayItem],
        before: Time,
        time: Time,
    ) -> Result<(), Refusal>
        ensures { MatchResult result (λ _. self.new ≡ self.old ++ displays_from names.now (λ what. read_left_in before what debugger.now.left) (present debugger.now time) 1 displays.now) (λ why. why ≡ Refusal.M) }
    {
        let readout = Readout {
            debugger,
            left: Some(before),
            time,
        };
        self.say_more(names, &readout, displays)?;
        Ok(())
    }

    /// Answers the lines of displays behind the answer to a move from a moment.
    pub(crate) fn say_behind(
        &mut self,
        debugger: &mut Debugger,
        names: &ScenarioNames,
        displays: &[DisplayItem],
        before: Time,
    ) -> Result<(), Refusal>
        ensures told { MatchResult result (λ _. TellsBehind names.now displays.now before debugger.old self.old self.new) (λ why. why ≡ Refusal.M) }
        ensures same { debugger.new ≡ debugger.old }
    {
        match present_time(debugger) {
            Ok(time) => self.say_compared(debugger, names, displays, before, time),
            Err(_) => Err(Refusal::M),
        }
    }

    /// Answers what is shown.
    pub(crate) fn say_shown(
        &mut self,
        debugger: &mut Debugger,
        naming: &Naming,
        what: Shown,
    ) -> Result<(), Refusal>
        ensures reported { MatchResult result (λ _. Tells naming.now debugger.old.start (session_state debugger.old) what self.new) (λ why. why ≡ Refusal.M) }
        ensures same { debugger.new ≡ debugger.old }
    {
        self.dump.clear();
        self.is_short = false;
        match append_shown(&mut self.dump, debugger, naming, what) {
            Ok(()) => Ok(()),
            Err(_) => Err(Refusal::M),
        }
    }
}
