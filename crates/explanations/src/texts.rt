//! The texts.

/// What a code means, by what stands in a row: the code, its meaning, the rule, the line that is named behind the code,
/// and what is refused and right. In "of six" that is a line of the one text of six lines, with what is to be seen in it;
/// in "on one" a command over that text.
macro_rules! text {
    (1 of six; $code:literal $meaning:literal $rule:literal $line:literal $seen:literal $wrong:literal) => {
        text!(six; $code $meaning $rule $line $seen $wrong "node s sender" "node r receiver" "link a s r 8000000 1000000 droptail 10" "link b r s 8000000 1000000 droptail 10" "flow f s r 1000 1 0 64000 0")
    };
    (2 of six; $code:literal $meaning:literal $rule:literal $line:literal $seen:literal $wrong:literal) => {
        text!(six; $code $meaning $rule $line $seen "sim 1000000000" $wrong "node r receiver" "link a s r 8000000 1000000 droptail 10" "link b r s 8000000 1000000 droptail 10" "flow f s r 1000 1 0 64000 0")
    };
    (3 of six; $code:literal $meaning:literal $rule:literal $line:literal $seen:literal $wrong:literal) => {
        text!(six; $code $meaning $rule $line $seen "sim 1000000000" "node s sender" $wrong "link a s r 8000000 1000000 droptail 10" "link b r s 8000000 1000000 droptail 10" "flow f s r 1000 1 0 64000 0")
    };
    (4 of six; $code:literal $meaning:literal $rule:literal $line:literal $seen:literal $wrong:literal) => {
        text!(six; $code $meaning $rule $line $seen "sim 1000000000" "node s sender" "node r receiver" $wrong "link b r s 8000000 1000000 droptail 10" "flow f s r 1000 1 0 64000 0")
    };
    (6 of six; $code:literal $meaning:literal $rule:literal $line:literal $seen:literal $wrong:literal) => {
        text!(six; $code $meaning $rule $line $seen "sim 1000000000" "node s sender" "node r receiver" "link a s r 8000000 1000000 droptail 10" "link b r s 8000000 1000000 droptail 10" $wrong)
    };
    (none of six; $code:literal $meaning:literal $rule:literal $line:literal $seen:literal) => {
        text!(six; $code $meaning $rule $line $seen "node s sender" "node r receiver" "link a s r 8000000 1000000 droptail 10" "link b r s 8000000 1000000 droptail 10" "flow f s r 1000 1 0 64000 0")
    };
    (six; $code:literal $meaning:literal $rule:literal $line:literal $seen:literal $($wrong:literal)*) => {
        text!(all; $code $meaning $rule "note" $line $seen {$("    " $wrong "\n")*} {"    sim 1000000000
    node s sender
    node r receiver
    link a s r 8000000 1000000 droptail 10
    link b r s 8000000 1000000 droptail 10
    flow f s r 1000 1 0 64000 0
"})
    };
    (more than six; $code:literal $meaning:literal $rule:literal $line:literal $wrong:literal $right:literal) => {
        text!(more; $code $meaning $rule $line "    sim 1000000000
    node s sender
    node r receiver
    link a s r 8000000 1000000 droptail 10
    link b r s 8000000 1000000 droptail 10
    flow f s r 1000 1 0 64000 0
" $wrong $right)
    };
    (more; $code:literal $meaning:literal $rule:literal $line:literal $six:literal $wrong:literal $right:literal) => {
        text!(all; $code $meaning $rule "note" $line "" {$six $wrong} {$six $right})
    };
    (all; $code:literal $meaning:literal $rule:literal $how:literal $line:literal $seen:literal {$($wrong:literal)*} {$($right:literal)*}) => {
        concat!($code, ": ", $meaning, "\n\n", $rule, "\n\nRefused, with the ", $how, " `refused ", $code, $line, "`", $seen, ":\n\n", $($wrong,)* "\nRight is:\n\n", $($right),*)
    };
    ($how:literal on one; $code:literal $meaning:literal $rule:literal $line:literal $wrong:literal $right:literal) => {
        text!(all; $code $meaning $rule $how $line ", where one.txt is the text that `tcpsim explain E2` ends with" {"    $ " $wrong "\n"} {"    $ " $right "\n"})
    };
    ($how:literal; $code:literal $meaning:literal $rule:literal $line:literal $wrong:literal $right:literal) => {
        text!(all; $code $meaning $rule $how $line "" {$wrong} {$right})
    };
}

/// What each code means.
const TEXTS: [&str; 26] = [
    text!(1 of six;
        "E1"
        "a byte of the line is outside 0x20 to 0x7E, also one in its comment"
        "A text has the bytes from 0x20 (space) to 0x7E (~), and line feeds between its lines. A tab, a
carriage return, as editors of another system put before each line feed, and every byte of an accented
letter is outside."
        " line 1"
        ", as a tab stands behind `sim`"
        "sim\t1000000000"
    ),
    text!(2 of six;
        "E2"
        "the first word is no statement"
        "A line's first word is sim, node, link, flow, route or lose, in small letters. A line without words,
or with a comment alone, says nothing."
        " line 2"
        ""
        "nodes s sender"
    ),
    text!(2 of six;
        "E3"
        "the statement has another number of words"
        "With its first word, `sim` has 2 words, `node` 3, `link` 8 with droptail and 11 with codel, `flow` 9,
or 11 with its sender's two words, `route` 4 and `lose` 3."
        " line 2"
        ""
        "node s"
    ),
    text!(1 of six;
        "E4"
        "a word has the wrong form: it is no number, no name, or none of the fixed words, where one is asked"
        "A number is decimal digits without a leading zero; zero itself is 0. A name is a small letter and
then up to 14 small letters or digits. Fixed words are sender, receiver, router, droptail and codel, and
the last two of a flow that has them: reno or newreno, then iw3 or iw10."
        " line 1"
        ""
        "sim 01000000000"
    ),
    text!(4 of six;
        "E5"
        "a number is out of its range; RWND is below MSS; the number of a `lose` is not above the link's last one"
        "END is from 1 to 1000000000000000 ns, RATE from 1000 to 1000000000000 bits a second, DELAY from 1 to
10000000000 ns, CAP from 1 to 65535 packets, TARGET and INTERVAL from 1 to 10000000000 ns, MAXPACKET
from 1 to 65535 bytes, MSS from 1 to 9000 bytes, SEGMENTS from 1 to 1000000000, START from 0 to
999999999999999 ns, RWND from MSS to 1073741824 bytes, DELACK from 0 to 500000000 ns, and the number of
a `lose` from 1 to 1000000000."
        " line 4"
        ""
        "link a s r 999 1000000 droptail 10"
    ),
    text!(3 of six;
        "E6"
        "a declared name is taken, by a node, a link or a flow; or ROUTER has a route to DEST already"
        "Nodes, links and flows share one space of names. A router has one route to a sender or receiver."
        " line 3"
        ""
        "node s receiver"
    ),
    text!(4 of six;
        "E7"
        "a used name is not declared on an earlier line"
        "A node is declared before the links that join it, links before the routes over them, and nodes
before their flows."
        " line 4"
        ""
        "link a s x 8000000 1000000 droptail 10"
    ),
    text!(4 of six;
        "E8"
        "a used name is of another sort or kind than asked: FROM or TO no node, TO the same node as FROM, SENDER no sender, RECEIVER no receiver, ROUTER no router, DEST no sender or receiver, LINK no link, a route's LINK not leaving ROUTER"
        "A link joins two nodes, a flow goes from a sender to a receiver, and a route says by which of its own
links a router sends what is for a sender or receiver."
        " line 4"
        ""
        "link a s s 8000000 1000000 droptail 10"
    ),
    text!("note" on one;
        "E9"
        "too many: node 257, link 1,025, flow 129, a router's 17th outgoing link, a link's 65th `lose`"
        "There are at most 256 nodes, 1024 links, 128 flows, 16 links that leave one router, and 64 `lose` of
one link."
        " line 71"
        "{ cat one.txt; seq -f 'lose a %g' 65; } | tcpsim run"
        "{ cat one.txt; seq -f 'lose a %g' 64; } | tcpsim run"
    ),
    text!(none of six;
        "E10"
        "the text has no `sim`, or more than one"
        "One line `sim END` says when the simulation ends. It may stand anywhere."
        " line 0"
        ""
    ),
    text!("note" on one;
        "L1"
        "there are fewer bytes than the counts in them, as they stand, ask for"
        "An image's header says how many nodes, links, flows and routes follow. An image is cut short, or its
header is damaged. An input that begins with the bytes TCB is an image."
        ""
        "tcpsim asm one.txt | head -c 134 | tcpsim run"
        "tcpsim asm one.txt | tcpsim run"
    ),
    text!("note" on one;
        "L2"
        "the first four bytes are neither `TCB1` nor `TCB2`"
        "An input that begins with TCB is an image, and then comes its version. `tcpsim asm` writes version 2; in
version 1 no flow has a byte for its sender, and each is reno iw3."
        ""
        "{ printf TCB3; tcpsim asm one.txt | tail -c +5; } | tcpsim run"
        "{ printf TCB2; tcpsim asm one.txt | tail -c +5; } | tcpsim run"
    ),
    text!(6 of six;
        "L3"
        "a flow starts at END or later; there are fewer than two nodes, no link, or no flow"
        "In a text these show when all lines are read, so the line is 0. In an image, whose numbers have no
lines, L3 is every number out of its range, a number of a node or link that there is not, and a flow's
last byte above 3 in version 2."
        " line 0"
        ""
        "flow f s r 1000 1 1000000000 64000 0"
    ),
    text!("note" on one;
        "L4"
        "bytes are left over"
        "Nothing stands behind an image's last route."
        ""
        "{ tcpsim asm one.txt; printf x; } | tcpsim run"
        "{ tcpsim asm one.txt; } | tcpsim run"
    ),
    text!(more than six;
        "L5"
        "a sender or a receiver does not have exactly one flow that names it and exactly one outgoing link, or a router has no outgoing link"
        "Each sender has one flow and one link that leaves it, and so has each receiver. A host with two
transfers is two senders. In an image L5 is a router's 17th outgoing link as well."
        " line 0"
        "    node t sender
"
        "    node t sender
    node u receiver
    link c t u 8000000 1000000 droptail 10
    link d u t 8000000 1000000 droptail 10
    flow g t u 1000 1 0 64000 0
"
    ),
    text!("note" on one;
        "L6"
        "a flow that goes not from a sender to a receiver, a link into the node that it leaves, a route that is not a router's, not for a sender or receiver, or not over a link that leaves the router"
        "In a text this shows in its line, as E8, so L6 is a fault of images alone."
        ""
        "{ tcpsim asm one.txt | head -c 27; printf '\\0'; tcpsim asm one.txt | tail -c +29; } | tcpsim run"
        "{ tcpsim asm one.txt | head -c 27; printf '\\1'; tcpsim asm one.txt | tail -c +29; } | tcpsim run"
    ),
    text!("note";
        "L7"
        "on some flow's way, for data or for acknowledgements, there is a router without a route to the way's end, or a sender or receiver that is not the way's end"
        "Data go from the sender to the receiver and acknowledgements back, so a router on the way needs a
route to each of the two."
        " line 0"
        "    sim 1000000000
    node s sender
    node p router
    node r receiver
    link a s p 8000000 1000000 droptail 10
    link b p r 8000000 1000000 droptail 10
    link c r p 8000000 1000000 droptail 10
    link d p s 8000000 1000000 droptail 10
    flow f s r 1000 1 0 64000 0
    route p r b
"
        "    sim 1000000000
    node s sender
    node p router
    node r receiver
    link a s p 8000000 1000000 droptail 10
    link b p r 8000000 1000000 droptail 10
    link c r p 8000000 1000000 droptail 10
    link d p s 8000000 1000000 droptail 10
    flow f s r 1000 1 0 64000 0
    route p r b
    route p s d
"
    ),
    text!("note";
        "L8"
        "some flow's way returns to a node"
        "Each router on the way sends on by its route to the way's end. Two routers that each send to the
other keep a packet for ever."
        " line 0"
        "    sim 1000000000
    node s sender
    node p router
    node r receiver
    node q router
    link a s p 8000000 1000000 droptail 10
    link b p r 8000000 1000000 droptail 10
    link c r p 8000000 1000000 droptail 10
    link d p s 8000000 1000000 droptail 10
    link e p q 8000000 1000000 droptail 10
    link g q p 8000000 1000000 droptail 10
    flow f s r 1000 1 0 64000 0
    route p r e
    route q r g
    route p s d
"
        "    sim 1000000000
    node s sender
    node p router
    node r receiver
    node q router
    link a s p 8000000 1000000 droptail 10
    link b p r 8000000 1000000 droptail 10
    link c r p 8000000 1000000 droptail 10
    link d p s 8000000 1000000 droptail 10
    link e p q 8000000 1000000 droptail 10
    link g q p 8000000 1000000 droptail 10
    flow f s r 1000 1 0 64000 0
    route p r b
    route q r g
    route p s d
"
    ),
    text!("note" on one;
        "I1"
        "the input has more than 16,777,216 bytes"
        "A scenario, as text or image, has at most 16 MiB, and so has a debugger's session with its commands."
        ""
        "{ cat one.txt; yes '#' | head -c 16777216; } | tcpsim run"
        "{ cat one.txt; yes '#' | head -c 16777000; } | tcpsim run"
    ),
    text!("answer" on one;
        "B1"
        "no command has this name, or no sort of breakpoint"
        "The commands are step, back, until, run, state, break and clear; a breakpoint is of a node, a flow, a
kind or a drop. At a prompt there are more of both, and `help` lists them; what stands behind `state` or
`help` there can be unknown too. The session goes on."
        ""
        "{ cat one.txt; printf -- '---\\nbak 1\\n'; } | tcpsim debug"
        "{ cat one.txt; printf -- '---\\nback 1\\n'; } | tcpsim debug"
    ),
    text!("answer" on one;
        "B2"
        "the number of words is another"
        "`step`, `back` and `until` want a number; `run`, `state` and `clear` stand alone; `break node`, `break
flow` and `break kind` want one word more, and `break drop` none. At a prompt a number of events or of
lines can be left out, and a breakpoint has each sort of condition once; a line there has at most 65,536
bytes. The session goes on."
        ""
        "{ cat one.txt; printf -- '---\\nstep\\n'; } | tcpsim debug"
        "{ cat one.txt; printf -- '---\\nstep 1\\n'; } | tcpsim debug"
    ),
    text!("answer" on one;
        "B3"
        "a word is no number, or out of its range; there is no such node, flow or kind"
        "A number is decimal digits without a leading zero, and counts and moments are from 0 to
1000000000000000. Nodes, links and flows go by their numbers, each sort from 0 in the order of the text:
the first flow is 0. At a prompt over a text they go by their names too. The kinds are start, rto,
delack, free, data and ack. At a prompt a moment can have a unit, as 1.5s, 20ms, 3us or 10ns, and is in
whole nanoseconds. The session goes on."
        ""
        "{ cat one.txt; printf -- '---\\nstep 01\\n'; } | tcpsim debug"
        "{ cat one.txt; printf -- '---\\nstep 1\\n'; } | tcpsim debug"
    ),
    text!("answer";
        "B4"
        "a 65th breakpoint, or a 65th display"
        "The debugger keeps up to 64 breakpoints at once; `clear` takes all away. One that is set already stays
as it is. At a prompt it keeps up to 64 displays too; `undisplay` takes one away. The session goes on."
        ""
        "    $ tcpsim-net tree --flows 40 > many.txt
    $ { cat many.txt; echo ---; seq -f 'break node %g' 0 64; } | tcpsim debug
"
        "    $ tcpsim-net tree --flows 40 > many.txt
    $ { cat many.txt; echo ---; seq -f 'break node %g' 0 63; } | tcpsim debug
"
    ),
    text!("note" on one;
        "B5"
        "there is no breakpoint of this number, or no display"
        "At a prompt `delete` takes one breakpoint away, and `undisplay` one display. They have the numbers from 1
on, which `breaks` and `display` list; where one is taken away, those behind it move up. The session goes on."
        ""
        "printf 'delete 1\\n' | tcpsim debug one.txt"
        "printf 'break drop\\ndelete 1\\n' | tcpsim debug one.txt"
    ),
    "M: there was no memory, the run has more than 10^15 events, or a worker did not give back what it ran

The command has changed nothing and can be given again; the session goes on. There is no example, as
it depends on the machine: `ulimit -v` takes memory away.
",
    text!("note" on one;
        "groups"
        "the groups are no list, or not one for each node"
        "`--groups` is one, each, auto, or a number from 0 to 63 for each node of the scenario, in the order of the
nodes, without leading zeros, with commas between them and no spaces."
        ""
        "tcpsim run --groups 0 one.txt"
        "tcpsim run --groups 0,1 one.txt"
    ),
];

/// What each code means, in the order of docs/FORMATS.md.
pub(crate) fn all_texts() -> &'static [&'static str] {
    &TEXTS
}
