// A packet in its bits.
ghost use Rattle.std.specs.Prelude.{◌≡◌, ◌+◌, ◌<◌, ◌≤◌, true, length, MatchOption};
ghost use Rattle.bits.specs.Bits.{stretch, value_at};
ghost use Rattle.bits.specs.Pieces.{bits};
ghost use Rattle.wire.specs.Packets.{may_have, content, content_in, HandsOn, StartsAt};
ghost use Rattle.wire.specs.Readers.{Headed};

use crate::kind::Kind;
use crate::packet::{HEADER, LENGTH, LEVEL, MODE, NUMBER, Packet, STATE, VERSION};
use bits::bits::Bits;

// The number and the length that the first 21 bits say, if there are so many.
pub(crate) fn header(packet: &Bits) -> Option<(u8, usize)>
    ensures { MatchOption result (length (bits packet.now) < 21) (λ h. Headed (bits packet.now) h.0 h.1) }
{
    let number = packet.number(0, NUMBER)?;
    let length = packet.number(NUMBER, LENGTH)?;
    Some((number as u8, usize::from(length)))
}

// Whether a packet may have that many bits.
pub(crate) fn may_have(kind: Option<Kind>, bits: usize) -> bool
    ensures { result ≡ may_have kind bits }
{
    kind.is_none_or(|known| bits == known.length())
}

// The number that n bits of a packet write, from its bit `from` on.
fn field(packet: &Bits, from: usize, n: usize) -> u8
    requires { (from + n ≤ length (bits packet.now)) × (n ≤ 8) }
    ensures { result ≡ value_at (bits packet.now) from n }
{
    packet.number(from, n).unwrap() as u8
}

// What a packet says that starts at that bit of its message's octets, once its number and its length are found right.
pub(crate) fn body<'a>(
    kind: Option<Kind>,
    octets: &'a [u8],
    start: usize,
    packet: &Bits<'a>,
) -> Packet<'a>
    requires packet { (21 ≤ length (bits packet.now)) × (may_have kind (length (bits packet.now)) ≡ true) }
    requires stands { stretch octets.now start (length (bits packet.now)) ≡ bits packet.now }
    ensures content { content result ≡ content_in kind (length (bits packet.now)) (bits packet.now) }
    ensures start { StartsAt start result }
    ensures unread { HandsOn octets.now result }
{
    match kind {
        Some(Kind::Version) => Packet::Version {
            major: field(packet, HEADER, VERSION),
            minor: field(packet, HEADER + VERSION, VERSION),
        },
        Some(Kind::Status) => Packet::Status {
            level: field(packet, HEADER, LEVEL),
            mode: field(packet, HEADER + LEVEL, MODE),
        },
        Some(Kind::Request) => Packet::Request(field(packet, HEADER, STATE)),
        Some(Kind::Order) => Packet::Order(field(packet, HEADER, STATE)),
        Some(Kind::Report) => Packet::Report(field(packet, HEADER, STATE)),
        Some(Kind::TripNotice) => Packet::TripNotice,
        None => Packet::Other {
            octets,
            start,
            bits: *packet,
        },
    }
}
