//! Sessions over files, and over lines that are typed. What is told beside the answers is tried on the built
//! program: dev/test_prompt.py.

ghost use Rattle.std.specs.Prelude.{◌≡◌, ◌≤◌, length};
ghost use Rattle.window_engine.specs.Failures.{counted};

use super::texts::{FIRST, FIRST_TRACE};
use super::{ended, expect_end};
use sessions::source::{OverRead, Source, SourceFail};
use std::process::Abort;
use std::sync::Wait;
use std::thread::Threads;
use window_engine::{Gate, OverWrite, Sink};

/// Puts the first bytes into a room. The answer is how many.
fn put(room: &mut [u8], bytes: &[u8]) -> usize
    ensures { result ≤ length room.new }
{
    let count = bytes.len().min(room.len());
    room[..count].copy_from_slice(&bytes[..count]);
    count
}

/// A right text as standard input and in the file `one.txt`, one of one node fewer in the file `short.txt`,
/// and a file `broken` that opens and cannot be read; and lines that are typed: after them the input ends, or
/// breaks.
#[derive(Drop)]
struct Folder {
    /// What is given next.
    rest: &'static str,
    lines: &'static [&'static str],
    broken: bool,
    breaks: bool,
    /// How often it was asked to open a file, for bytes, and for a line, that which was not there too.
    opens: u64,
    gets: u64,
    asked: usize,
    failures: u64,
}

impl Folder {
    fn new(lines: &'static [&'static str], breaks: bool) -> Folder {
        Folder {
            rest: FIRST,
            lines,
            broken: false,
            breaks,
            opens: 0,
            gets: 0,
            asked: 0,
            failures: 0,
        }
    }

    /// Counts a failure.
    fn fail(&mut self) -> SourceFail
        ensures { self.new ≡ record self.old { failures = counted self.old.failures } }
    {
        self.failures = self.failures.saturating_add(1);
        SourceFail
    }
}

impl Source for Folder {
    ghost failures = { λ s. s.failures };

    fn open(&mut self, file: &str) -> Result<(), SourceFail> {
        self.opens = self.opens.saturating_add(1);
        match file {
            "one.txt" => self.rest = FIRST,
            "short.txt" => self.rest = "sim 5\nnode s sender\n",
            "broken" => self.broken = true,
            _ => return Err(self.fail()),
        }
        Ok(())
    }

    fn get(&mut self, room: &mut [u8]) -> Result<usize, SourceFail> {
        self.gets = self.gets.saturating_add(1);
        if self.broken {
            return Err(self.fail());
        }
        let count = put(room, self.rest.as_bytes());
        self.rest = "";
        Ok(count)
    }

    fn next_line<S: Sink>(
        &mut self,
        _shown: &S,
        room: &mut [u8],
    ) -> Result<Option<usize>, SourceFail> {
        let at = self.asked;
        self.asked = at.saturating_add(1);
        match self.lines.get(at) {
            Some(line) => Ok(Some(put(room, line.as_bytes()))),
            None if self.breaks => Err(self.fail()),
            None => Ok(None),
        }
    }
}

/// A session over the folder with these words: its status, its note and its output.
fn expect_of_folder(
    rt: &(impl Abort + AllocGlobal + Threads + Wait + Sync),
    folder: &mut Folder,
    words: &[&str],
    (status, note): (u8, &str),
    output: &str,
) {
    let mut out = Vec::new(rt.alloc());
    let mut writer = OverWrite::new(&mut out);
    let outcome = ended(rt, folder, &mut writer, words, &Gate::for_all());
    expect_end(rt, outcome, status, note);
    assert!(rt; out.as_slice() == output.as_bytes());
}

/// Words of a session over a file, how it ends, how often a file is opened, and whether something is read.
type Named = (&'static str, &'static str, (u8, &'static str), u64, bool);

const NAMED: [Named; 10] = [
    ("run", "-", (0, ""), 0, true),
    ("run", "one.txt", (0, ""), 1, true),
    ("run", "short.txt", (1, "refused L3 line 0\n"), 1, true),
    ("asm", "short.txt", (1, "refused L3 line 0\n"), 1, true),
    ("dis", "short.txt", (1, "refused L3 line 0\n"), 1, true),
    ("run", "none.txt", (3, "cannot read none.txt\n"), 1, false),
    ("asm", "none.txt", (3, "cannot read none.txt\n"), 1, false),
    ("dis", "none.txt", (3, "cannot read none.txt\n"), 1, false),
    ("run", "broken", (3, "cannot read broken\n"), 1, true),
    ("run", "", (3, "cannot read \n"), 1, false),
];

#[test]
fn a_file_is_read_in_the_place_of_standard_input(rt: HostRuntime) {
    for (word, file, end, opens, is_read) in NAMED {
        let mut folder = Folder::new(&[], false);
        let output = if end.0 == 0 { FIRST_TRACE } else { "" };
        expect_of_folder(&rt, &mut folder, &["tcpsim", word, file], end, output);
        assert!(rt;
            folder.opens == opens && (folder.gets > 0) == is_read,
            "{file}"
        );
    }
}

#[test]
fn a_reader_has_no_files(rt: HostRuntime) {
    let mut out = Vec::new(rt.alloc());
    let mut reader = OverRead::new(FIRST.as_bytes());
    let mut writer = OverWrite::new(&mut out);
    let words = ["tcpsim", "run", "one.txt"];
    let outcome = ended(&rt, &mut reader, &mut writer, &words, &Gate::for_all());
    expect_end(&rt, outcome, 3, "cannot read one.txt\n");
    assert!(rt; out.is_empty());
}

const MOVES: [&str; 4] = ["step 3", "back 2", "back 9", "run"];

/// What is answered to them.
const MOVED: &str = "1 0 0 0 0 start 0 una=0 nxt=1000 cwnd=4000 ssthresh=64000 phase=ss tx=0:0:0
2 1040000 0 0 3 free 0 una=0 nxt=1000 cwnd=4000 ssthresh=64000 phase=ss
3 2040000 1 1 1 data 0 0 next=1000 tx=1:0:1000
of node r, flow f
at 3 of the run, time 2040000 ns
3 2040000 1 1 1 data 0 0 next=1000 tx=1:0:1000
2 1040000 0 0 3 free 0 una=0 nxt=1000 cwnd=4000 ssthresh=64000 phase=ss
at 1 of the run, time 0 ns
1 0 0 0 0 start 0 una=0 nxt=1000 cwnd=4000 ssthresh=64000 phase=ss tx=0:0:0
at 0 of the run, time 0 ns, the beginning
1 0 0 0 0 start 0 una=0 nxt=1000 cwnd=4000 ssthresh=64000 phase=ss tx=0:0:0
2 1040000 0 0 3 free 0 una=0 nxt=1000 cwnd=4000 ssthresh=64000 phase=ss
3 2040000 1 1 1 data 0 0 next=1000 tx=1:0:1000
4 2080000 1 0 3 free 1 next=1000
5 3080000 0 2 1 ack 0 1000 una=1000 nxt=1000 cwnd=5000 ssthresh=64000 phase=ss
of node s, flow f
at 5 of the run, time 3080000 ns, the end
";

/// To the end of the lines, and to a line that cannot be read, alone and by workers who are at each window.
#[test]
fn lines_are_answered_to_their_end(rt: HostRuntime) {
    for workers in ["1", "2", "64"] {
        for (breaks, end) in [(false, (0, "")), (true, (3, "read failed\n"))] {
            let mut folder = Folder::new(&MOVES, breaks);
            let words = [
                "tcpsim",
                "debug",
                "one.txt",
                "--groups",
                "each",
                "--workers",
                workers,
            ];
            expect_of_folder(&rt, &mut folder, &words, end, MOVED);
            assert_eq!(rt; (folder.opens, folder.asked), (1, 5));
        }
    }
}
