//! The word for which TCP a flow's sender speaks: which word stands for which.
ghost use Rattle.std.specs.Prelude.{◌≡◌, ◌++◌, codes};
ghost use Rattle.scenario_asm.specs.TcpWords.{tcp_named, tcp_word};

use crate::lexer::Word;
use sim_time::{RENO, Variant};

/// The variant that a word names, if it names one, with the smaller initial window.
pub(crate) fn tcp_in(word: &Word<'_>) -> Option<Variant>
    ensures { result ≡ tcp_named word.now }
{
    if word.is(b"reno") {
        Some(RENO)
    } else if word.is(b"newreno") {
        Some(Variant {
            newreno: true,
            ..RENO
        })
    } else {
        None
    }
}

/// The word for a variant, whatever its initial window, behind a space.
pub(crate) fn tcp_part(variant: Variant) -> &'static [u8]
    ensures { result.now ≡ codes " " ++ tcp_word variant }
{
    if variant.newreno {
        b" newreno"
    } else {
        b" reno"
    }
}
