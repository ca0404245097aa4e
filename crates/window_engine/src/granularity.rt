//! When events are run one after another for a while, and not by windows: where windows hold few events, since each
//! of them costs something for every group, and where the threads that are to share a window come to it
//! late, since the calling thread then runs all groups by itself.
ghost use Rattle.std.specs.Prelude.{◌≡◌};

use window_text::TextFormatter;
use window_workers::WORTH;

/// Over how many windows it is asked how many events they hold.
const LOOK: u64 = 32;

/// At least so many events are run one after another,
const SHORTEST: u64 = 16_384;

/// so many for each pair of a node and a group, so that it costs little to go by groups again,
const EACH: u64 = 32;

/// and at most so many.
const LONGEST: u64 = 1_048_576;

/// Events are run one after another once threads came late so often more than in time. One is then taken off, so that
/// one late window more is enough.
const LATE: u64 = 4;

/// How many groups of a window threads ran.
#[derive(Clone, Copy, Drop)]
pub struct Turnout {
    /// How many the thread ran that ran most of them.
    pub most: usize,
    /// How many all threads ran: none, where the calling thread ran the window.
    pub all: usize,
}

impl Turnout {
    /// That of a window which threads did not share.
    pub(crate) fn none() -> Turnout {
        Turnout { most: 0, all: 0 }
    }

    /// That of a window of so many groups, which threads ran before they made these texts, of the window before.
    pub(crate) fn of(groups: usize, formatters: &[TextFormatter]) -> Turnout {
        if groups == 1 {
            Turnout::of_text(formatters)
        } else {
            Turnout::of_groups(formatters)
        }
    }

    /// That of the groups.
    fn of_groups(formatters: &[TextFormatter]) -> Turnout {
        let mut turnout = Turnout::none();
        for formatter in formatters {
            turnout.most = turnout.most.max(formatter.ran);
            turnout.all = turnout.all.saturating_add(formatter.ran);
        }
        turnout
    }

    /// That of the text beside the run of one group, by parts in the place of groups: late is a thread that made none, so
    /// that the calling thread, whose formatter is the first, made all.
    fn of_text(formatters: &[TextFormatter]) -> Turnout {
        let mut turnout = Turnout::none();
        for formatter in formatters {
            turnout.all = turnout.all.saturating_add(formatter.parts());
        }
        turnout.most = match formatters.first() {
            Some(own) => own.parts(),
            None => 0,
        };
        turnout
    }
}

/// What windows held.
#[derive(Clone, Copy)]
pub enum Load {
    /// There were too few windows to say.
    Unknown,
    /// Few events, so that one after another costs less.
    Few,
    /// Many events.
    Many,
}

/// What windows held, of which so many ended by the lookahead, with so many events in all. A window that was to end
/// sooner says nothing of how many events the next ones hold. They hold few where a second thread would not be worth it:
/// they cost something for every group, what leaves a group is handed over window by window, and lines are
/// kept until the window ends, so that the same events one after another cost less.
pub fn load_of(windows: u64, events: u64) -> Load {
    if events >= LOOK.saturating_mul(WORTH as u64) {
        Load::Many
    } else if windows >= LOOK {
        Load::Few
    } else {
        Load::Unknown
    }
}

/// Whether threads came late to a window that they were to share: so late that one of them ran all of its groups. On a
/// machine with other work a thread may wait for a processor longer than the window takes.
pub fn is_late(turnout: Turnout) -> bool {
    turnout.all > 1 && turnout.most == turnout.all
}

/// How often threads came late, less how often they were in time, after one more window, from 0 to `LATE`. One that
/// the calling thread ran says nothing of it.
pub fn lateness(before: u64, turnout: Turnout) -> u64 {
    if turnout.all == 0 {
        before
    } else if is_late(turnout) {
        before.saturating_add(1).min(LATE)
    } else {
        before.saturating_sub(1)
    }
}

/// How many events of so many nodes of so many groups are to be run one after another, where it was so many the
/// last time and windows held few again, or threads came late; 0 where it is the first time.
pub fn next_stretch(last: u64, nodes: usize, groups: usize) -> u64 {
    let pairs = (nodes as u64).saturating_mul(groups as u64);
    let least = SHORTEST.max(pairs.saturating_mul(EACH));
    last.saturating_mul(2).max(least).min(LONGEST)
}

/// Whether events are run one after another, what windows held since that was chosen, and how often threads came late.
#[derive(Clone, Copy, Drop)]
pub(crate) struct Granularity {
    /// Whether events are run one after another.
    single: bool,
    /// How many windows ended by the lookahead.
    windows: u64,
    /// How many events there were, by windows or one after another.
    events: u64,
    /// How many events are run one after another, or were the last time; 0 where windows held many
    /// since then, with no late one left to make up for.
    stretch: u64,
    /// How often threads came late to a window, less how often they were in time.
    late: u64,
}

impl Granularity {
    /// None was run. In several groups events are run by windows; in one they are first run one after another, since a
    /// short run is over before a thread that makes text is worth it.
    pub(crate) fn new(groups: usize) -> Granularity {
        Granularity {
            single: groups == 1,
            windows: 0,
            events: 0,
            stretch: if groups == 1 { SHORTEST } else { 0 },
            late: 0,
        }
    }

    /// Whether events are run one after another.
    pub(crate) fn is_single(&self) -> bool
        ensures { result ≡ self.now.single }
    {
        self.single
    }

    /// Forgets what was counted.
    fn clear(&mut self) {
        self.windows = 0;
        self.events = 0;
    }

    /// Goes on by windows.
    pub(crate) fn go_by_windows(&mut self) {
        self.clear();
        self.single = false;
    }

    /// Goes on one event after another, twice as long as the last time.
    fn go_singly(&mut self, nodes: usize, groups: usize) {
        self.clear();
        self.stretch = next_stretch(self.stretch, nodes, groups);
        self.single = true;
    }

    /// Counts so many events that were run one after another, and goes on by windows where they are enough.
    pub(crate) fn count_singly(&mut self, events: u64) {
        self.events = self.events.saturating_add(events);
        if self.events >= self.stretch {
            self.go_by_windows();
        }
    }

    /// Counts a window of so many events, which ended by the lookahead or sooner, and of whose groups threads ran
    /// so many.
    pub(crate) fn count(&mut self, events: usize, whole: bool, turnout: Turnout) {
        self.windows = self.windows.saturating_add(u64::from(whole));
        self.events = self.events.saturating_add(events as u64);
        self.late = lateness(self.late, turnout);
    }

    /// Chooses how the events of so many nodes of so many groups are run after the windows that were counted.
    pub(crate) fn choose(&mut self, nodes: usize, groups: usize) {
        if self.late == LATE {
            // One late window more is then enough.
            self.late = LATE - 1;
            self.go_singly(nodes, groups);
            return;
        }
        match load_of(self.windows, self.events) {
            Load::Unknown => {}
            Load::Few => self.go_singly(nodes, groups),
            Load::Many => {
                self.clear();
                if self.late == 0 {
                    self.stretch = 0;
                }
            }
        }
    }
}
