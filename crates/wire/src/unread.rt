// Packets that the reader hands on unread.
ghost use Rattle.std.specs.Prelude.{◌≡◌};
ghost use Rattle.vocabulary.specs.Settings.{trip_of};
ghost use Rattle.bits.specs.Pieces.{bits};
ghost use Rattle.wire.specs.Packets.{handed_on};

use crate::kind::Kind;
use crate::reader::header;
use bits::bits::Bits;
use vocabulary::trip::TripNumber;

// Whether the reader hands on these bits as one unread packet.
pub fn is_unread(packet: &Bits, trip: TripNumber) -> bool
    ensures { result ≡ handed_on (trip_of trip) (bits packet.now) }
{
    // `is_some_and` was tried: its proof did not close.
    match header(packet) {
        Some((number, length)) => {
            length == packet.len() && Kind::from_number(number, u8::from(trip)).is_none()
        }
        None => false,
    }
}
