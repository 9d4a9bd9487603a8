// Packets by what they are written as.
ghost use Rattle.std.specs.Prelude.{◌≡◌, ℕ, ◌^◌, ◌≤◌, length, nat_lt};
ghost use Rattle.vocabulary.specs.Settings.{trip_of};
ghost use Rattle.writer.specs.Coding.{coded, sound, Codes};

use super::{Field, Parts};
use vocabulary::trip::TripNumber;
use wire::kind::Kind;
use wire::packet::{HEADER, LEVEL, MODE, Packet, STATE, VERSION};
use wire::unread::is_unread;

// A field of no bits: it adds nothing, so packets with fewer than two values need no case of their own.
const NONE: Field = Field { value: 0, width: 0 };

// A value in so many bits. The function states the fields for the proofs of its callers, which a literal does not.
fn field(value: u8, width: usize) -> Field
    requires { width ≤ 8 }
    ensures value { result.value ≡ value }
    ensures width { result.width ≡ width }
{
    Field { value, width }
}

impl Field {
    // Whether the value has no more bits.
    fn is_writable(&self) -> bool
        ensures { result ≡ nat_lt self.now.value (2 ^ self.now.width) }
    {
        u16::from(self.value) < 1 << self.width
    }
}

impl<'a> Parts<'a> {
    // A packet.
    pub(crate) fn of(packet: &Packet<'a>) -> Parts<'a>
        ensures { Codes packet.now result }
    {
        match *packet {
            Packet::Version { major, minor } => Parts::Known(
                Kind::Version,
                field(major, VERSION),
                field(minor, VERSION),
            ),
            Packet::Status { level, mode } => {
                Parts::Known(Kind::Status, field(level, LEVEL), field(mode, MODE))
            }
            Packet::Request(state) => Parts::Known(Kind::Request, field(state, STATE), NONE),
            Packet::Order(state) => Parts::Known(Kind::Order, field(state, STATE), NONE),
            Packet::Report(state) => Parts::Known(Kind::Report, field(state, STATE), NONE),
            Packet::TripNotice => Parts::Known(Kind::TripNotice, NONE, NONE),
            Packet::Other { bits, .. } => Parts::Unread(bits),
        }
    }

    // Whether the packet can be written.
    pub(crate) fn is_writable(&self, trip: TripNumber) -> bool
        ensures { result ≡ sound (trip_of trip) self.now }
    {
        match self {
            Parts::Known(_, first, second) => first.is_writable() && second.is_writable(),
            Parts::Unread(bits) => is_unread(bits, trip),
        }
    }

    // How many bits it has.
    pub(crate) fn len(&self) -> usize
        ensures { (trip : ℕ) → result ≡ length (coded trip self.now) }
    {
        match self {
            Parts::Known(_, first, second) => HEADER + first.width + second.width,
            Parts::Unread(bits) => bits.len(),
        }
    }
}
