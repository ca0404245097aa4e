//! What a CoDel queue shows beside the packets.
ghost use Rattle.std.specs.Prelude.{◌≡◌};
ghost use Rattle.aqm.specs.CodelReadouts.{codel_readouts, read_codel};

use crate::codel::Codel;
use crate::readout::Readout;

/// What it shows, in the order of a dump.
static ALL: [Readout; 5] = [
    Readout::FirstAbove,
    Readout::DropNext,
    Readout::Count,
    Readout::Lastcount,
    Readout::Dropping,
];

impl Codel {
    /// What it shows, in the order of a dump.
    pub fn readouts(&self) -> &'static [Readout]
        ensures { result.now ≡ codel_readouts }
    {
        &ALL
    }

    /// The number of a readout, if it has one.
    pub fn read(&self, readout: Readout) -> Option<u64>
        ensures { result ≡ read_codel self.now readout }
    {
        match readout {
            Readout::FirstAbove => self.first_above(),
            Readout::DropNext => Some(self.drop_next()),
            Readout::Count => Some(u64::from(self.count())),
            Readout::Lastcount => Some(u64::from(self.lastcount())),
            Readout::Dropping => Some(u64::from(self.dropping())),
        }
    }
}
