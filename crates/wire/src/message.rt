// Messages.
ghost use Rattle.std.specs.Prelude.{◌≡◌, ◌+◌, ◌≤◌, length, drop, None};
ghost use Rattle.vocabulary.specs.Settings.{trip_of};
ghost use Rattle.bits.specs.Bits.{bits_of};
ghost use Rattle.bits.specs.Pieces.{bits};
ghost use Rattle.wire.specs.Messages.{walked};

use bits::bits::Bits;
use vocabulary::trip::TripNumber;

pub mod ops;
mod walk;

// How many octets a message has at least and at most, and how many stand before its packets.
pub const LEAST: usize = 5;

pub const MOST: usize = 255;

pub const HEAD: usize = 2;

// Where the number of the STM stands, and how many octets there are.
pub const SENDER: usize = 0;

pub const COUNT: usize = 1;

// A message that was found right: the number of its STM, and a walk over its packets.
#[derive(Clone, Copy)]
pub struct Message<'a> {
    sender: u8,
    packets: Packets<'a>,
    ghost begins: { packets.at ≡ 16 },
    ghost right: { (walked (trip_of packets.trip) packets.at (bits packets.left)).stop ≡ None },
}

// A walk over the packets of a message: the message's octets, the bit of these at which what is left starts, the bits
// that are left, and the number that a trip notice has in it.
#[derive(Clone, Copy)]
pub struct Packets<'a> {
    octets: &'a [u8],
    at: usize,
    left: Bits<'a>,
    trip: TripNumber,
    ghost small: { at + length (bits left) ≤ 2040 },
    ghost behind: { bits left ≡ drop at (bits_of octets.now) },
}
