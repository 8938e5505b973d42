//! Keys of what is in flight, by which few states are looked at.

ghost use Rattle.std.specs.Prelude.{◌≡◌, ◌++◌, OnOk};
ghost use Rattle.fabric_core.specs.InFlight.{flight_key, flight_key_without, label_key as key_of_label, low_byte as byte_of};

use bridge_pair::Pair;
use std::alloc::AllocError;
use step_kinds::{Label, Side};

/// Adds the key of what a side has in flight: four bytes for each write, and a zero after them.
///
/// # Errors
///
/// [`AllocError`] if memory runs out. A part of the key may then be there.
pub fn push_flight(key: &mut Vec<u8>, pair: &Pair, side: Side) -> Result<(), AllocError>
    ensures { OnOk result (key.new.items ≡ key.old.items ++ flight_key pair.now side) }
{
    push_flight_without(key, pair, side, pair.in_flight(side))
}

/// Adds the key of what a side has in flight without the write at a place, if there is one.
///
/// # Errors
///
/// [`AllocError`] if memory runs out. A part of the key may then be there.
pub fn push_flight_without(
    key: &mut Vec<u8>,
    pair: &Pair,
    side: Side,
    without: usize,
) -> Result<(), AllocError>
    ensures { OnOk result (key.new.items ≡ key.old.items ++ flight_key_without pair.now side without) }
{
    for place in 0..pair.in_flight(side) {
        if place == without {
            continue;
        }
        if let Some(label) = pair.label_at(side, place) {
            key.extend_from_slice(&label_key(label))?;
        }
    }
    key.extend_from_slice(&[0])
}

// Returns what a label is, and up to three of its numbers, each modulo 256.
fn label_key(label: Label) -> [u8; 4]
    ensures { result ≡ key_of_label label }
{
    match label {
        Label::Chunk {
            queue,
            number,
            part,
        } => [
            1,
            low_byte(queue.into()),
            low_byte(number),
            low_byte(part.into()),
        ],
        Label::Len { queue, number } => [2, low_byte(queue.into()), low_byte(number), 0],
        Label::Ver { queue, number } => [3, low_byte(queue.into()), low_byte(number), 0],
        Label::Flag { queue, number } => [4, low_byte(queue.into()), low_byte(number), 0],
        Label::Down { queue, number } => [5, low_byte(queue.into()), low_byte(number), 0],
        Label::Bell { queue } => [6, low_byte(queue.into()), 0, 0],
        Label::Index { queue, number } => [7, low_byte(queue.into()), low_byte(number), 0],
        Label::Pad { index, value } => [8, low_byte(index.into()), low_byte(value.into()), 0],
        Label::Raw {
            window,
            offset,
            len,
        } => [
            9,
            low_byte(window.into()),
            low_byte(offset),
            low_byte(len.into()),
        ],
    }
}

// Returns the low byte of a number.
fn low_byte(number: u64) -> u8
    ensures { result ≡ byte_of number }
{
    (number % 256) as u8
}
