//! Ethernet frames (IEEE 802.3, without tags and checksum). A frame is the address of six bytes that it goes to, that
//! of the device that it comes from, the kind of the payload, and the payload.

ghost use Rattle.std.specs.Prelude.{IfErr, IfOk, IsErr, drop, length, ◌+◌, ◌<◌, ◌↔◌, ◌≡◌, ◌≤◌};
ghost use Rattle.step_kinds.specs.Limits.{most_frame_bytes};
ghost use Rattle.pair_model.specs.Ethernet.{ethernet_frame, ethernet_header};

use std::alloc::{AllocError, Global};
use step_kinds::Frame;
use thiserror::Error;

/// The bytes of the two addresses and the kind in front of a payload. A shorter frame has no Ethernet header.
pub const HEADER_BYTES: u32 = 14;

/// What stands in front of the payload of an Ethernet frame.
#[derive(Clone, Copy, Debug, PartialEq, Eq)]
pub struct Header {
    /// The address of the device that the frame goes to.
    pub dst: [u8; 6],
    /// The address of the device that it comes from.
    pub src: [u8; 6],
    /// The kind of the payload (its EtherType), 0 to 65,535: two bytes of the frame, the higher one first.
    pub kind: u16,
}

/// A frame has fewer than the 14 bytes of an Ethernet header.
#[derive(Clone, Copy, Debug, PartialEq, Eq, Error)]
#[error("a frame of {len} bytes has no Ethernet header")]
pub struct Short {
    /// The bytes that it has.
    pub len: u32,
}

/// Returns the Ethernet frame with these addresses and this kind, its high byte first, before a payload. The payload
/// has to have at most 65,522 bytes: with the 14 bytes before it the frame has at most 65,536. So the largest payload
/// of a device is 14 bytes below the longest frame of its queue.
///
/// # Errors
///
/// [`AllocError`] if memory runs out.
pub fn encode(
    alloc: Global,
    dst: [u8; 6],
    src: [u8; 6],
    kind: u16,
    payload: &[u8],
) -> Result<Frame, AllocError>
    requires { length payload.now + ethernet_header ≤ most_frame_bytes }
    ensures { IfOk result (λ frame. frame ≡ ethernet_frame dst src kind payload.now) }
{
    let mut bytes = Vec::with_capacity(alloc, HEADER_BYTES as usize + payload.len())?;
    bytes.extend_from_slice(&dst)?;
    bytes.extend_from_slice(&src)?;
    bytes.extend_from_slice(&kind.to_be_bytes())?;
    bytes.extend_from_slice(payload)?;
    Ok(Frame::of_vec(bytes))
}

/// Reads the addresses and the kind of an Ethernet frame, which has to have at most 65,536 bytes. Its payload is what
/// follows the first 14 bytes, and may be empty. It takes no memory.
///
/// # Errors
///
/// [`Short`], with the number of bytes, if and only if these are fewer than 14.
pub fn decode(bytes: &[u8]) -> Result<Header, Short>
    requires { length bytes.now ≤ most_frame_bytes }
    ensures exact { IsErr result ↔ (length bytes.now < ethernet_header) }
    ensures short { IfErr result (λ short. short.len ≡ length bytes.now) }
    ensures parts { IfOk result (λ header.
        bytes.now ≡ ethernet_frame header.dst header.src header.kind (drop ethernet_header bytes.now)) }
{
    if bytes.len() < HEADER_BYTES as usize {
        return Err(Short {
            len: bytes.len() as u32,
        });
    }
    let mut dst = [0u8; 6];
    dst.copy_from_slice(&bytes[..6]);
    let mut src = [0u8; 6];
    src.copy_from_slice(&bytes[6..12]);
    let kind = u16::from_be_bytes([bytes[12], bytes[13]]);
    Ok(Header { dst, src, kind })
}
