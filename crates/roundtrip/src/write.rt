// Writing a whole message.
ghost use Rattle.std.specs.Prelude.{◌≡◌, map};
ghost use Rattle.vocabulary.specs.Settings.{trip_of};
ghost use Rattle.wire.specs.Packets.{content};
ghost use Rattle.roundtrip.specs.Sending.{written};
ghost use Rattle.roundtrip.specs.RoundTrips.{ReadBack};

use vocabulary::fault::Fault;
use vocabulary::trip::TripNumber;
use wire::packet::Packet;
use writer::writer::Writer;

// A message of an STM with these packets, at the front of a buffer; how many octets it has.
pub fn write_message(
    octets: &mut [u8],
    sender: u8,
    packets: &[Packet],
    trip: TripNumber,
) -> Result<usize, Fault>
    ensures answer { result ≡ (written sender (trip_of trip) (map content packets.now) octets.old).answer }
    ensures buffer { octets.new ≡ (written sender (trip_of trip) (map content packets.now) octets.old).buffer }
    ensures law { ReadBack (trip_of trip) sender (map content packets.now) octets.old result octets.new }
{
    let mut writer = Writer::new(octets, sender, trip);
    for packet in packets {
        writer.add(packet)?;
    }
    writer.finish()
}
