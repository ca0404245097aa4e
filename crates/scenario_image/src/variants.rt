//! A flow's sender as the last byte of a flow: which byte stands for which.
ghost use Rattle.std.specs.Prelude.{◌≡◌};
ghost use Rattle.scenario_image.specs.Variants.{variant_byte, variant_of_byte};

use sim_time::{Iw, RENO, Variant};

/// The byte of a flow's variant: 1 for NewReno, 2 for the initial window of ten segments, summed.
pub(crate) fn byte_of(variant: Variant) -> u8
    ensures { result ≡ variant_byte variant }
{
    let newreno = if variant.newreno { 1 } else { 0 };
    let iw = match variant.iw {
        Iw::Iw3 => 0,
        Iw::Iw10 => 2,
    };
    newreno + iw
}

/// The variant that a byte stands for.
pub(crate) fn variant_of(byte: u8) -> Option<Variant>
    ensures { result ≡ variant_of_byte byte }
{
    let (newreno, iw) = match byte {
        0 => (false, Iw::Iw3),
        1 => (true, Iw::Iw3),
        2 => (false, Iw::Iw10),
        3 => (true, Iw::Iw10),
        _ => return None,
    };
    Some(Variant {
        newreno,
        iw,
        ..RENO
    })
}
