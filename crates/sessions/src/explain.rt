//! What a code means.
ghost use Rattle.std.specs.Prelude.{◌≡◌};
ghost use Rattle.sessions.specs.Answered.{IsAnswer, IsExplained};
ghost use Rattle.sessions.specs.Ended.{writes_after};
ghost use Rattle.sessions.specs.Written.{Writes};

use crate::fault::SessionFault;
use crate::output::put_all;
use command_line::subcommand::OptionalWord;
use explanations::{list_codes, text_of};
use std::alloc::Global;
use window_engine::Sink;

/// Writes a line for each code, once there is memory for all of them.
fn put_list<W: Sink>(alloc: Global, writer: &mut W) -> Result<(), SessionFault>
    ensures output { Writes (IsAnswer result) (W.contents writer.old) (W.contents writer.new) }
    ensures failures { W.failures writer.new ≡ writes_after result (W.failures writer.old) }
{
    let list = list_codes(alloc)?;
    put_all(writer, list.as_slice())?;
    Ok(())
}

/// Writes what a code means, or a line for each code where none is given.
pub(crate) fn explain<W: Sink>(
    alloc: Global,
    code: &OptionalWord,
    writer: &mut W,
) -> Result<(), SessionFault>
    ensures output { Writes (IsExplained code.now result) (W.contents writer.old) (W.contents writer.new) }
    ensures failures { W.failures writer.new ≡ writes_after result (W.failures writer.old) }
{
    let Some(code) = code.get() else {
        return put_list(alloc, writer);
    };
    let Some(text) = text_of(code) else {
        return Err(SessionFault::NoSuchCode);
    };
    put_all(writer, text.as_bytes())?;
    Ok(())
}
