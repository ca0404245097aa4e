//! Where the lines of a window are cut, so that about as many are in each part.
ghost use Rattle.std.specs.Prelude.{◌≡◌, ◌≤◌, slice_index_or};

use super::Sheaf;
use super::lines::Lines;
use sim_time::Time;

/// How many moments are noted for each part.
const NOTED: usize = 2;

/// How many moments are noted at most.
const MOST_NOTED: usize = 256;

// Notes the moment of each so many-th line of a list, behind so many moments that are noted. The answer is how many
// are noted then.
fn note(lines: &Lines, stride: usize, noted: &mut [Time; MOST_NOTED], before: usize) -> usize
    requires { before ≤ 256 }
    ensures { result ≤ 256 }
{
    let mut count = before;
    for nth in 0..lines.len() / stride.max(1) {
        // The line in the middle of those for which it stands.
        let index = nth.saturating_mul(stride).saturating_add(stride / 2);
        if let Some(key) = lines.key(index)
            && count < MOST_NOTED
        {
            noted[count] = key.time;
            count += 1;
        }
    }
    count
}

// The moment of a part, out of so many, by moments that are noted in their order. That of the first is 0.
fn moment_of(noted: &[Time], part: usize, parts: usize) -> Time
    ensures { part ≡ 0 → result ≡ 0 }
{
    if part == 0 {
        return 0;
    }
    let place = noted.len().saturating_mul(part) / parts.max(1);
    match noted.get(place) {
        Some(moment) => *moment,
        None => Time::MAX,
    }
}

impl Sheaf {
    /// A moment for each of so many parts, at which it may begin, in nanoseconds and rising, so that about as many
    /// lines are in each. Part 0 begins with the first line. In every list the moment of each so many-th line is
    /// noted, and of all of them in order each so many-th begins a part: nothing is looked for, and lists whose lines
    /// are spread over the window in unlike ways are cut alike.
    pub fn cut_into(&self, moments: &mut [Time])
        ensures first { slice_index_or moments.new 0 0 ≡ 0 }
    {
        let parts = moments.len();
        let wanted = parts.saturating_mul(NOTED).clamp(1, MOST_NOTED);
        let stride = self.len().div_ceil(wanted);
        let mut noted = [0; MOST_NOTED];
        let mut count = 0;
        for lines in &self.lists {
            count = note(lines, stride, &mut noted, count);
        }
        let noted = &mut noted[..count];
        noted.sort_unstable();
        for part in 0..parts {
            moments[part] = moment_of(noted, part, parts);
        }
    }
}
