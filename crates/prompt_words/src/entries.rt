//! What can be typed first in a line, or behind `help`: one table of commands and topics.
ghost use Rattle.std.specs.Prelude.{◌≡◌, ◌++◌, OnOk, map, slice_get};
ghost use Rattle.std.specs.List.{flat_map};
ghost use Rattle.prompt_words.specs.Entries.{is_meant, is_command, name_among, name_of, place_among, place_of, topic_of, text_of, help_text, help_on};

use crate::conditions::value_sort_named;
use crate::name::{CommandName, begins};
use std::alloc::AllocError;

/// A command, or none for a topic of `help` alone; how many letters of its name a word has at least; and the name, with spaces behind it.
pub type EntryName = (Option<CommandName>, usize, [u8; 9]);

/// What it is called; how it is used; and what else there is to say, with a line as an example.
pub type Entry = (EntryName, &'static [u8], &'static [u8]);

/// The topics, and then the commands in the order in which `help` tells of them. A word means the first that it fits.
pub const ENTRIES: [Entry; 25] = [
    (
        (None, 1, *b"numbers  "),
        b"",
        b"A node, a link or a flow goes by its name in the text, or by its number. Each sort is counted from 0, in the
order of its lines there. So the first flow line is flow 0, the second one flow 1. An image has no names.
Lines of the trace and states have the numbers, other answers the names. names lists both. In the shell, tcpsim dis FILE
names all by their numbers: n0, l0, f0. Bytes of a flow are counted from 0 too, breakpoints and displays from 1.
names
",
    ),
    (
        (None, 1, *b"trace    "),
        b"",
        b"A line of the trace: n time node source number KIND AFTER ACTS
n            which event it is, counted from 1
time         when it happens, in nanoseconds
node         where
source       0: an alarm of the node; L + 1: a packet comes over link L
number       which alarm; or which packet of that link, counted from 1
KIND         what happens: help kinds
AFTER        the node afterwards: of a sender una= (first byte not acknowledged), nxt= (next byte to send),
             cwnd=, ssthresh= and phase= ss (slow start), ca (congestion avoidance) or fr (fast recovery);
             of a receiver next= (the byte that it waits for); of a router nothing
ACTS         tx=L:F:B: link L begins to send a packet of flow F, B its byte or acknowledgement number;
             drop=lost:F:B, drop=full:F:B or drop=codel:F:B: it is dropped by its number (lose), before
             a full queue, or by CoDel
lines 1
",
    ),
    (
        (None, 1, *b"kinds    "),
        b"",
        b"The kinds of events, as lines of the trace tell them and as break kind takes them:
start F      flow F starts
rto F        the retransmission timer of flow F ends
delack F     the receiver of flow F sends an acknowledgement that it delayed
free L       link L has sent a packet, and is free for the next one
data F B     a segment of flow F, from byte B on, comes to a router or to the receiver
ack F B      an acknowledgement of flow F, of all bytes before B, comes to a router or to the sender
break kind rto
",
    ),
    (
        (None, 4, *b"stall    "),
        b"",
        b"A flow is stalled where it has started, some of its bytes are not acknowledged, and none of its packets
waits in a queue or is on its way over a link. So only an alarm goes on with it: its retransmission timer,
or a delayed acknowledgement.
break stall stops after an event that leaves a flow so, break stall F after one that leaves flow F so, once
for each stall; stalls lists them all. lines 1 shows the event, which has the number of that flow, or drops a packet of
it. why F tells which alarm is due, and when, and what was dropped.
break stall
",
    ),
    (
        (None, 1, *b"values   "),
        b"",
        b"A condition on a value is of the lines after which it holds. Its sign is <, <=, >, >= or =, with or without spaces.
cwnd<3000    at a sender, of its state: cwnd, flight (bytes in flight), ssthresh, una, nxt or dups (duplicates)
rto>1s       at a sender: how long its retransmission timer runs
phase fr     at a sender: ss (slow start), ca (congestion avoidance) or fr (fast recovery)
next>=4000   at a receiver: the byte that it waits for
queue L>50   an event that changes link L: how many packets wait there
wait L>100ms the same: how long the first of them has waited
count L>4    the same: the count of CoDel; a drop-tail queue has none
time>=5s     the moment
change V F   an event that changes a value of flow F: cwnd, flight, ssthresh, una, nxt, rto, dups or next. It tells from what
flow F beside these asks for the sender or the receiver of flow F, else it is any.
break cwnd<3000 flow 0
",
    ),
    (
        (Some(CommandName::Step), 1, *b"step     "),
        b"step [K]     run the next K events (1)\n",
        b"It shows the last ten lines of the trace that it passes, how many more there are, and where it came to.
step 10
",
    ),
    (
        (Some(CommandName::Back), 1, *b"back     "),
        b"back [K]     take the last K events back (1)\n",
        b"It shows the last ten lines that it takes back, the latest first, and where it came to.
back 10
",
    ),
    (
        (Some(CommandName::Run), 1, *b"run      "),
        b"run          run until a breakpoint matches, or to the end\n",
        b"It stops after the next event whose line a breakpoint matches, and shows that breakpoint.
run
",
    ),
    (
        (Some(CommandName::Reverse), 2, *b"reverse  "),
        b"reverse      go back until a breakpoint matches, or to the beginning\n",
        b"It stops after the last event before this position whose line a breakpoint matches, else at position 0.
reverse
",
    ),
    (
        (Some(CommandName::Until), 1, *b"until    "),
        b"until T      run all events before the moment T, as 1.5s, 20ms or 10000ns\n",
        b"T is a number of nanoseconds, or has a unit: ns, us, ms or s. It only goes forwards, and else says so.
until 20ms
",
    ),
    (
        (Some(CommandName::Goto), 1, *b"goto     "),
        b"goto N       go to position N, or to a moment as 1.5s, forwards or back\n",
        b"N is how many events were run there, as the first number of a line of the trace; past the end it is the end.
A moment has a unit, as of until: all events before it are run, and no other.
goto 25
",
    ),
    (
        (Some(CommandName::Where), 3, *b"where    "),
        b"where        show the position, the next event, and how far the run is known to go\n",
        b"The next event is shown by the line that it gives. A run is known to go to where the session was.
where
",
    ),
    (
        (Some(CommandName::State), 3, *b"state    "),
        b"state [PART] show all of the state, or of it: node N, link L or flow F\n",
        b"node N and link L show one line each, flow F all that there is of a flow: both of its ends, the links
where its packets wait, and its events to come. N, L and F are names or numbers: help numbers
Of a link offered= and sent= count packets. queue= has those that wait: 4:d:7000@102299200 is data 7000 of flow 4, queued
at 102299200 ns; a is an acknowledgement. Of a sender high= is the greatest nxt= so far, lt= the bytes of limited transmit.
state flow 0
",
    ),
    (
        (Some(CommandName::Break), 2, *b"break    "),
        b"break COND.. stop where all match: node N, flow F, kind K, drop, link L, byte B, a value; or stall [F]\n",
        b"node N       the event happens at node N (N, L and F are names or numbers: help numbers)
flow F       the event is of flow F; a free is of none
kind K       start, rto, delack, free, data or ack: help kinds
drop         a packet is dropped
link L       link L begins to send a packet, or drops one
byte B       a segment that begins with byte B arrives, or an acknowledgement of B; with drop, it is dropped
cwnd<3000    and other values of a sender, a receiver, a link, or of the time: help values
stall [F]    a flow, or flow F, is stalled from there on: help stall; it stands alone
break flow 0 kind rto
",
    ),
    (
        (Some(CommandName::Breaks), 6, *b"breaks   "),
        b"breaks       list the breakpoints\n",
        b"They are counted from 1; where one is taken away, those behind it move up by one.
breaks
",
    ),
    (
        (Some(CommandName::Delete), 1, *b"delete   "),
        b"delete I     take breakpoint I away\n",
        b"I is its number, as breaks lists it.
delete 1
",
    ),
    (
        (Some(CommandName::Clear), 1, *b"clear    "),
        b"clear        take all breakpoints away\n",
        b"clear\n",
    ),
    (
        (Some(CommandName::Lines), 1, *b"lines    "),
        b"lines [K]    show the last K lines of the trace (10)\n",
        b"K is 1000 at most. What stands in a line: help trace
lines 20
",
    ),
    (
        (Some(CommandName::Display), 2, *b"display  "),
        b"display [IT] show flow F, link L or a value of either after each move; alone, list them\n",
        b"flow F       all values of flow F
link L       all values of link L
cwnd F       a value of flow F: cwnd, flight, ssthresh, una, nxt, rto, dups, phase or next
queue L      a value of link L: queue, wait or count
Behind a value stands what it was before the move, where that was another: cwnd f = 8000 (was 4000). A - is no value.
What the values are: help values. Displays are counted from 1.
display cwnd 0
",
    ),
    (
        (Some(CommandName::Undisplay), 3, *b"undisplay"),
        b"undisplay I  take display I away\n",
        b"I is its number, as display lists it; those behind it move up by one.
undisplay 1
",
    ),
    (
        (Some(CommandName::Why), 1, *b"why      "),
        b"why F        tell what flow F waits for\n",
        b"F is the name of a flow, or its number: the first flow line of the text is flow 0, the next one flow 1.
It tells how the flow stands, where its packets are, and when its alarms are due. It tells the first byte that is missing
at its receiver, or else the acknowledgement that is missing at its sender, and each drop of that by its line: help goto.
why 0
",
    ),
    (
        (Some(CommandName::Stalls), 4, *b"stalls   "),
        b"stalls       list all stalls of the run, each with a goto that goes there\n",
        b"It lists them as goto 25: flow f is stalled at 9280000 ns: only an alarm of the flow goes on with it from there: help stall.
The session stays where it is.
stalls
",
    ),
    (
        (Some(CommandName::Names), 1, *b"names    "),
        b"names        list the names of nodes, links and flows with their numbers\n",
        b"A name can stand wherever a number of a node, a link or a flow can: help numbers. An image has none.
names
",
    ),
    (
        (Some(CommandName::Help), 1, *b"help     "),
        b"help [NAME]  show this, or more of NAME: a command, numbers, trace, kinds, stall or values\n",
        b"NAME can be cut short, as a command can. In the shell, tcpsim explain B3 tells more of refused B3.
help until
",
    ),
    (
        (Some(CommandName::Quit), 1, *b"quit     "),
        b"quit         end the session\n",
        b"The end of input (Ctrl-D) does so too.
quit
",
    ),
];

/// Whether a word fits a name.
fn is_meant(word: &[u8], name: &EntryName) -> bool
    ensures { result ≡ is_meant word.now name.now }
{
    name.1 <= word.len() && begins(word, &name.2)
}

/// Whether a word fits the name of a command.
fn is_command(word: &[u8], name: &EntryName) -> bool
    ensures { result ≡ is_command word.now name.now }
{
    name.0.is_some() && is_meant(word, name)
}

/// The first command among these that a word means.
fn name_among(entries: &[Entry], word: &[u8]) -> Option<CommandName>
    ensures { result ≡ name_among entries.now word.now }
{
    for entry in entries {
        if is_command(word, &entry.0) {
            return entry.0.0;
        }
    }
    None
}

/// The command that a word means.
#[tactic(auto, unfolding(crate::specs::Entries::name_of))]
pub(crate) fn name_of(word: &[u8]) -> Option<CommandName>
    ensures { result ≡ name_of word.now }
{
    name_among(&ENTRIES, word)
}

/// Where the first of these stands that a word fits.
fn place_among(entries: &[Entry], word: &[u8]) -> Option<usize>
    ensures { result ≡ place_among entries.now word.now }
{
    entries.iter().position(|entry| is_meant(word, &entry.0))
}

/// Where the first entry stands that a word fits.
#[tactic(auto, unfolding(crate::specs::Entries::place_of))]
fn place_of(word: &[u8]) -> Option<usize>
    ensures { result ≡ place_of word.now }
{
    place_among(&ENTRIES, word)
}

/// Where the entry stands that `help` tells of at a word: all of a value's name is about values.
pub(crate) fn topic_of(word: &[u8]) -> Option<usize>
    ensures { result ≡ topic_of word.now }
{
    if value_sort_named(word).is_some() {
        place_of(b"values")
    } else {
        place_of(word)
    }
}

// Appends how these are used.
fn append_usages(out: &mut Vec<u8>, entries: &[Entry]) -> Result<(), AllocError>
    ensures { OnOk result (out.new.items ≡ out.old.items ++ flat_map (λ entry. entry.1.now) entries.now) }
{
    for entry in entries {
        out.extend_from_slice(entry.1)?;
    }
    Ok(())
}

/// Appends how all commands are used.
#[tactic(auto, unfolding(crate::specs::Entries::help_text))]
pub fn append_help(out: &mut Vec<u8>) -> Result<(), AllocError>
    ensures { OnOk result (out.new.items ≡ out.old.items ++ help_text) }
{
    append_usages(out, &ENTRIES)?;
    out.extend_from_slice(
        b"(nodes N, links L and flows F go by their names, or by numbers from 0: help numbers)
(an empty line does the last move again)
",
    )
}

// Appends what there is to say of the entry at a place, where there is one.
fn append_text(out: &mut Vec<u8>, entries: &[Entry], place: usize) -> Result<(), AllocError>
    ensures { OnOk result (out.new.items ≡ out.old.items ++ text_of (slice_get (map (λ entry. entry.1.now ++ entry.2.now) entries.now) place)) }
{
    match entries.get(place) {
        None => Ok(()),
        Some(entry) => {
            out.extend_from_slice(entry.1)?;
            out.extend_from_slice(entry.2)
        }
    }
}

/// Appends what there is to say of the entry at a place.
#[tactic(auto, unfolding(crate::specs::Entries::help_on))]
pub fn append_help_on(out: &mut Vec<u8>, place: usize) -> Result<(), AllocError>
    ensures { OnOk result (out.new.items ≡ out.old.items ++ help_on place) }
{
    append_text(out, &ENTRIES, place)
}
