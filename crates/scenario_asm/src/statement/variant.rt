//! The two words of a `flow` statement that say which sender it has. Both may be left out.
ghost use Rattle.std.specs.Prelude.{◌≡◌};
ghost use Rattle.scenario_asm.specs.Statements.{iw_named, tcp_verdict, tcp_said, iw_verdict, iw_said};
ghost use Rattle.scenario_asm.specs.Verdicts.{Judges};

use crate::fault::Fault;
use crate::lexer::Word;
use crate::tcp_words::tcp_in;
use sim_time::{Iw, RENO, Variant};

/// The initial window that a word names, if it names one.
fn iw_in(word: &Word<'_>) -> Option<Iw>
    ensures { result ≡ iw_named word.now }
{
    if word.is(b"iw3") {
        Some(Iw::Iw3)
    } else if word.is(b"iw10") {
        Some(Iw::Iw10)
    } else {
        None
    }
}

/// Which TCP the tenth word says: where it is left out, Reno is meant.
pub(super) fn tcp(words: &[Word<'_>]) -> Result<Variant, Fault>
    ensures { Judges (tcp_verdict words.now) (tcp_said words.now) result }
{
    match words.get(9) {
        Some(word) => tcp_in(word).ok_or(Fault::E4),
        None => Ok(RENO),
    }
}

/// The initial window that the eleventh word says: where it is left out, the smaller one is meant.
pub(super) fn iw(words: &[Word<'_>]) -> Result<Iw, Fault>
    ensures { Judges (iw_verdict words.now) (iw_said words.now) result }
{
    match words.get(10) {
        Some(word) => iw_in(word).ok_or(Fault::E4),
        None => Ok(Iw::Iw3),
    }
}
