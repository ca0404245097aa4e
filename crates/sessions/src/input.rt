//! The input that a session is given.
ghost use Rattle.std.specs.Prelude.{◌≡◌, ◌<◌, ◌≤◌, ◌++◌, ℕ, List, length, take, IfOk, OnErr, IfErr};
ghost use Rattle.std.specs.Io.KnownBytes.{Consumes, IsAtEnd};
ghost use Rattle.sessions.specs.Ended.{IsReadFault, reads_after};
ghost use Rattle.sessions.specs.Named as named;
ghost use Rattle.sessions.specs.Prompt.{IsFileFault, line_reads_after};
ghost use Rattle.sessions.specs.Session.{IsWithin};
ghost use Rattle.sessions.specs.Streams.{IsInputOf};

use crate::fault::SessionFault;
use crate::file_name::shown_name;
use crate::source::Source;
use command_line::subcommand::OptionalWord;
use std::alloc::{AllocError, Global};

/// The most bytes of an input.
const MOST_BYTES: usize = 16_777_216;

/// The most bytes that are asked for at once.
const PIECE: usize = 65_536;

/// All bytes of the input, if they are few enough.
pub(crate) fn read_input<R: Source>(alloc: Global, reader: &mut R) -> Result<Vec<u8>, SessionFault>
    ensures input { IfOk result (λ input. IsInputOf (R.remaining reader.old) input.items) }
    ensures within { IfOk result (λ input. IsWithin input.items) }
    ensures faults { IfErr result (λ fault. (input : List ℕ) × IsInputOf (R.remaining reader.old) input × IsReadFault input fault) }
    ensures typed { R.typed reader.new ≡ R.typed reader.old }
    ensures failures { R.failures reader.new ≡ reads_after result (R.failures reader.old) }
{
    let mut room = room_for_piece(alloc)?;
    let mut input = Vec::new(alloc);
    while input.len() <= MOST_BYTES {
        if read_piece(reader, room.as_mut_slice(), &mut input)? == 0 {
            return Ok(input);
        }
    }
    Err(SessionFault::TooLong)
}

/// Room for a piece of the input.
fn room_for_piece(alloc: Global) -> Result<Vec<u8>, AllocError>
    ensures { IfOk result (λ room. 0 < length room.items) }
{
    vec![in alloc; 0; PIECE]
}

/// Adds the next piece of the input to what was read and answers its length, which is 0 at the end.
fn read_piece<R: Source>(
    reader: &mut R,
    room: &mut [u8],
    input: &mut Vec<u8>,
) -> Result<usize, SessionFault>
    requires { 0 < length room.old }
    ensures piece { IfOk result (λ count. (piece : List ℕ) × (input.new.items ≡ input.old.items ++ piece) × (length piece ≡ count) × Consumes (R.remaining reader.old) (R.remaining reader.new) piece) }
    ensures end { IfOk result (λ count. count ≡ 0 → IsAtEnd (R.remaining reader.new)) }
    ensures faults { IfErr result (λ fault. (input : List ℕ) → IsReadFault input fault) }
    ensures typed { R.typed reader.new ≡ R.typed reader.old }
    ensures failures { R.failures reader.new ≡ reads_after result (R.failures reader.old) }
{
    let count = reader.get(room)?;
    input.extend_from_slice(&room[..count])?;
    Ok(count)
}

/// All bytes of a file, if they are few enough.
fn read_file<R: Source>(alloc: Global, file: &str, reader: &mut R) -> Result<Vec<u8>, SessionFault>
    ensures input { IfOk result (λ input. IsInputOf (R.bytes_of reader.old file.now) input.items) }
    ensures within { IfOk result (λ input. IsWithin input.items) }
    ensures faults { IfErr result (λ fault. (input : List ℕ) × IsInputOf (R.bytes_of reader.old file.now) input × IsFileFault file.now input fault) }
    ensures typed { R.typed reader.new ≡ R.typed reader.old }
    ensures failures { R.failures reader.new ≡ line_reads_after result (R.failures reader.old) }
{
    let name = shown_name(alloc, file)?;
    if reader.open(file).is_err() {
        return Err(SessionFault::CannotRead(name));
    }
    match read_input(alloc, reader) {
        Err(SessionFault::ReadFailed) => Err(SessionFault::CannotRead(name)),
        other => other,
    }
}

/// The file that a word names: none, and standard input has the bytes, where there is no word or it
/// is `-`.
pub(crate) fn named_file<'a>(word: &OptionalWord<'a>) -> OptionalWord<'a>
    ensures { result ≡ named.named_file word.now }
{
    let Some(name) = word.get() else {
        return OptionalWord::new(None);
    };
    if name == "-" {
        OptionalWord::new(None)
    } else {
        OptionalWord::new(Some(name))
    }
}

/// All bytes of a file, or of the reader where none is named, if they are few enough.
pub(crate) fn read_named<R: Source>(
    alloc: Global,
    file: &OptionalWord,
    reader: &mut R,
) -> Result<Vec<u8>, SessionFault>
    ensures input { IfOk result (λ input. IsInputOf (named.known_of file.now (R.remaining reader.old) (R.bytes_of reader.old)) input.items) }
    ensures within { IfOk result (λ input. IsWithin input.items) }
    ensures faults { IfErr result (λ fault. (input : List ℕ) × IsInputOf (named.known_of file.now (R.remaining reader.old) (R.bytes_of reader.old)) input × named.IsInputFault file.now input fault) }
    ensures typed { R.typed reader.new ≡ R.typed reader.old }
    ensures failures { R.failures reader.new ≡ named.input_reads_after file.now result (R.failures reader.old) }
{
    match file.get() {
        Some(name) => read_file(alloc, name, reader),
        None => read_input(alloc, reader),
    }
}
