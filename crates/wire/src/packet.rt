// Packets.
use bits::bits::Bits;

// How many bits a packet's number has, its length field, and both.
pub const NUMBER: usize = 8;

pub const LENGTH: usize = 13;

pub const HEADER: usize = NUMBER + LENGTH;

// How many bits a major or a minor has, a level, a mode, and a state.
pub const VERSION: usize = 8;

pub const LEVEL: usize = 3;

pub const MODE: usize = 4;

pub const STATE: usize = 4;

// A packet. Values are the numbers that stand on the wire, whatever they mean: one that names no state is a packet all the same.
#[derive(Clone, Copy)]
pub enum Packet<'a> {
    // STM-1: the version of the interface that the sender speaks.
    Version {
        major: u8,
        minor: u8,
    },
    // STM-5: the level and the mode of the on-board.
    Status {
        level: u8,
        mode: u8,
    },
    // STM-13: the state that the STM asks for.
    Request(u8),
    // STM-14: the state that the STM is ordered to.
    Order(u8),
    // STM-15: the state that the STM is in.
    Report(u8),
    // The National Trip Procedure.
    TripNotice,
    // Any other packet, unread: the octets of its message, the bit of these at which it starts, and its bits.
    Other {
        octets: &'a [u8],
        start: usize,
        bits: Bits<'a>,
    },
}
