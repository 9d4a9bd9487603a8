// Reading a message and writing it again.
ghost use Rattle.std.specs.Prelude.{◌≡◌};
ghost use Rattle.vocabulary.specs.Settings.{trip_of};
ghost use Rattle.roundtrip.specs.Sending.{rewritten};
ghost use Rattle.roundtrip.specs.RoundTrips.{Rewritten};

use vocabulary::fault::Fault;
use vocabulary::trip::TripNumber;
use wire::message::Message;
use writer::writer::Writer;

// A message is read, and what it says is written at the front of a buffer; how many octets that has.
#[tactic(auto, using(crate::proofs::TripLaws::rewrite_law))]
pub fn rewrite_message(octets: &mut [u8], message: &[u8], trip: TripNumber) -> Result<usize, Fault>
    ensures answer { result ≡ (rewritten (trip_of trip) message.now octets.old).answer }
    ensures buffer { octets.new ≡ (rewritten (trip_of trip) message.now octets.old).buffer }
    ensures law { Rewritten (trip_of trip) message.now octets.old result octets.new }
{
    let read = Message::read(message, trip)?;
    let mut writer = Writer::new(octets, read.sender(), trip);
    // The loop of `write_message`, over a walk: what the two go over say it in different words.
    for packet in read.packets() {
        writer.add(&packet)?;
    }
    writer.finish()
}
