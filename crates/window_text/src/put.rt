//! Bytes on their way to a sink.
ghost use Rattle.std.specs.Prelude.{◌≡◌, OnOk, IfErr};
ghost use Rattle.std.specs.Io.KnownBytes.{Appends};
ghost use Rattle.window_text.specs.Failures.{failures_after};
ghost use Rattle.window_text.specs.Puts.{TakesFirst};

use crate::sink::Sink;

/// Writes all bytes, in as few pieces as the sink takes. A refusal says how many went out before.
pub fn put_all<S: Sink>(sink: &mut S, bytes: &[u8]) -> Result<(), usize>
    ensures ok { OnOk result (Appends (S.contents sink.old) (S.contents sink.new) bytes.now) }
    ensures err { IfErr result (λ written. TakesFirst written bytes.now (S.contents sink.old) (S.contents sink.new)) }
    ensures failures { S.failures sink.new ≡ failures_after result (S.failures sink.old) }
{
    let mut done = 0;
    while done < bytes.len() {
        match sink.put(&bytes[done..]) {
            Ok(count) => done += count,
            Err(_) => return Err(done),
        }
    }
    Ok(())
}
