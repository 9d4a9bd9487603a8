// Reading a message, and walking over its packets.
ghost use Rattle.std.specs.Prelude.{◌≡◌, IfOk};
ghost use Rattle.std.specs.Result.{result_err};
ghost use Rattle.vocabulary.specs.Settings.{trip_of};
ghost use Rattle.wire.specs.Messages.{read_message, size_fault, wrong_length};
ghost use Rattle.wire.specs.Walkers.{reading, heard, ahead, message_octets, walk_octets, walk_start};

use super::{COUNT, LEAST, MOST, Message, Packets, SENDER};
use vocabulary::fault::{Fault, Layer, Refusal};
use vocabulary::trip::TripNumber;

const LENGTH_BIT: usize = 8;

// A message of a wrong length, at the bit that shows it.
fn wrong_length(place: usize) -> Fault
    ensures { result ≡ wrong_length place }
{
    Fault::new(Refusal::MessageLength, place, Layer::Message)
}

// The length that a message has is the one that it says.
fn check_length(octets: &[u8]) -> Result<(), Fault>
    ensures { result_err result ≡ size_fault octets.now }
{
    if !(LEAST..=MOST).contains(&octets.len()) {
        return Err(wrong_length(0));
    }
    if usize::from(octets[COUNT]) != octets.len() {
        return Err(wrong_length(LENGTH_BIT));
    }
    Ok(())
}

impl<'a> Message<'a> {
    // Octets as a message, in which a trip notice has the number `trip`. All packets are checked. Octets and trip number are no
    // struct, here and where messages are written: the octets come and go, and the number is a setting.
    pub fn read(octets: &'a [u8], trip: TripNumber) -> Result<Message<'a>, Fault>
        ensures answer { heard result ≡ read_message (trip_of trip) octets.now }
        ensures octets { IfOk result (λ m. message_octets m ≡ octets.now) }
    {
        check_length(octets)?;
        let packets = Packets::over(octets, trip);
        packets.check()?;
        Ok(Message {
            sender: octets[SENDER],
            packets,
        })
    }

    // The number of its STM.
    pub fn sender(&self) -> u8
        ensures { result ≡ (reading self.now).sender }
    {
        self.sender
    }

    // A walk over its packets, from the first on.
    pub fn packets(&self) -> Packets<'a>
        ensures packets { ahead result ≡ (reading self.now).packets }
        ensures octets { walk_octets result ≡ message_octets self.now }
        ensures start { walk_start result ≡ 16 }
    {
        self.packets
    }
}
