//! Numbers as frames of four bytes, the lowest byte first.

ghost use Rattle.std.specs.Prelude.{◌≡◌, IfOk};
ghost use Rattle.stream_model.specs.Numbers.{number_frame, number_in};

use byteorder::{ByteOrder, LittleEndian};
use std::alloc::{AllocError, Global};
use step_kinds::Frame;

/// Returns the frame that says a number. Returns an error if memory runs out.
pub fn number_frame(alloc: Global, number: u32) -> Result<Frame, AllocError>
    ensures { IfOk result (λ frame. frame ≡ number_frame number) }
{
    let mut bytes = [0u8; 4];
    LittleEndian::write_u32(&mut bytes, number);
    Ok(Frame::of_vec(Vec::from_slice(alloc, &bytes)?))
}

/// Returns the number that a frame says, and `None` if and only if it hasn't four bytes.
pub fn number_in(frame: &Frame) -> Option<u32>
    ensures { result ≡ number_in frame.now }
{
    if frame.len() == 4 {
        Some(LittleEndian::read_u32(frame.bytes()))
    } else {
        None
    }
}
