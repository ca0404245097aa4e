//! The nets of texts, which are given in pieces.
use net_machine::Net;
use scenario_asm::assemble;
use std::alloc::{AllocError, Global};
use std::process::Abort;

// The text of these pieces.
fn joined(alloc: Global, pieces: &[&str]) -> Result<Vec<u8>, AllocError> {
    let mut text = Vec::new(alloc);
    for piece in pieces {
        text.extend_from_slice(piece.as_bytes())?;
    }
    Ok(text)
}

fn opened(alloc: Global, pieces: &[&str]) -> Result<Net, AllocError> {
    let text = joined(alloc, pieces)?;
    match assemble(alloc, &text) {
        Ok(scenario) => Net::new(alloc, &scenario),
        Err(_) => Err(AllocError),
    }
}

/// The net of the text of these pieces. What is refused memory is asked for once more.
pub(crate) fn net_of(rt: &impl Abort, alloc: Global, pieces: &[&str]) -> Net {
    match opened(alloc, pieces) {
        Ok(net) => net,
        Err(_) => opened(alloc, pieces)
            .ok()
            .expect(rt, "one request is refused"),
    }
}
