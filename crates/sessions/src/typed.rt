//! Lines that are typed, byte by byte.
ghost use Rattle.std.specs.Prelude.{◌≤◌, length, IfOk, IfSome};

use std::io::{self, Read};

/// The next byte of a reader; none at its end.
fn next_byte<R: Read>(reader: &mut R) -> io::Result<Option<u8>> {
    let mut room = [0; 1];
    let count = reader.read(&mut room)?;
    if count == 0 {
        Ok(None)
    } else {
        Ok(Some(room[0]))
    }
}

/// Puts the next line of a reader at the start of the room, without its end, and answers how many
/// bytes it has there: what there is no room for is read over. None where nothing is left. It reads
/// no byte behind the line.
pub fn read_line<R: Read>(reader: &mut R, room: &mut [u8]) -> io::Result<Option<usize>>
    ensures within { IfOk result (λ found. IfSome found (λ count. count ≤ length room.new)) }
{
    let mut count = 0;
    let mut is_begun = false;
    for _ in 0..u64::MAX {
        let Some(byte) = next_byte(reader)? else {
            return Ok(if is_begun { Some(count) } else { None });
        };
        if byte == b'\n' {
            return Ok(Some(count));
        }
        is_begun = true;
        if count < room.len() {
            room[count] = byte;
            count += 1;
        }
    }
    Ok(Some(count))
}
