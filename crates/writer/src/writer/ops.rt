// Starting, adding to and finishing a message.
ghost use Rattle.std.specs.Prelude.{◌≡◌, ◌+◌, ◌-◌, ◌*◌, ◌^◌, ◌<◌, ◌≤◌, min, length, ◌==◌};
ghost use Rattle.vocabulary.specs.Settings.{trip_of};
ghost use Rattle.wire.specs.Packets.{content};
ghost use Rattle.writer.specs.Drafts.{started, add_answer, added, finish_answer, finished, room};
ghost use Rattle.writer.specs.Writers.{written, draft, Pads};

use super::Writer;
use crate::parts::Parts;
use bits::OCTET;
use vocabulary::fault::{Fault, Layer, Refusal};
use vocabulary::trip::TripNumber;
use wire::message::{COUNT, HEAD, MOST, SENDER};
use wire::packet::Packet;

// The first bits of an octet, with zeros behind them.
fn filled(waiting: u8, count: usize) -> u8
    requires { (1 ≤ count) × ((count < 8) × (waiting < 2 ^ count)) }
    ensures { result ≡ waiting * 2 ^ (8 - count) }
{
    waiting << (OCTET - count)
}

// How many octets a message has whose packets fill that many.
fn length_of(octets: usize) -> usize
    requires { octets ≤ 253 }
    ensures { result ≡ 2 + octets }
{
    HEAD + octets
}

// How many octets of a buffer of that length are there for packets.
fn room_in(len: usize) -> usize
    ensures { result ≡ min len 255 - 2 }
{
    len.min(MOST).saturating_sub(HEAD)
}

impl<'a> Writer<'a> {
    // A message of an STM in which a trip notice has the number `trip`, with no packet yet. The buffer is as it was.
    pub fn new(octets: &'a mut [u8], sender: u8, trip: TripNumber) -> Writer<'a>
        ensures draft { draft result ≡ started sender (trip_of trip) octets.old }
        ensures lender { result.octets.ghost_name ≡ octets.entry.ghost_name }
    {
        Writer {
            octets,
            sender,
            trip,
            full: 0,
            waiting: 0,
            count: 0,
        }
    }

    // How many bits there is room for.
    fn room(&self) -> usize
        ensures { result + length (written self.now) ≡ 8 * room self.now.octets.now }
    {
        OCTET * room_in(self.octets.len()) - (OCTET * self.full + self.count)
    }

    // One packet more, if it can be written and there is room for it.
    pub fn add(&mut self, packet: &Packet) -> Result<(), Fault>
        ensures answer { result ≡ add_answer (content packet.now) (draft self.old) }
        ensures draft { draft self.new ≡ added (content packet.now) (draft self.old) }
        ensures lender { self.new.octets.ghost_name ≡ self.old.octets.ghost_name }
    {
        let parts = Parts::of(packet);
        if !parts.is_writable(self.trip) {
            return Err(Fault::new(Refusal::Misfit, 0, Layer::Packet));
        }
        if self.room() < parts.len() {
            return Err(Fault::new(Refusal::Full, 0, Layer::Message));
        }
        self.packet(&parts);
        Ok(())
    }

    // No packet was added.
    fn is_empty(&self) -> bool
        ensures { result ≡ (length (written self.now) == 0) }
    {
        OCTET * self.full + self.count == 0
    }

    // The bits that wait are put down, with zeros behind them; how many octets the packets fill.
    fn pad(&mut self) -> usize
        requires { 0 < length (written self.old) }
        ensures { Pads self.old result self.new }
    {
        if self.count == 0 {
            return self.full;
        }
        self.octets[HEAD + self.full] = filled(self.waiting, self.count);
        self.full + 1
    }

    // Ends the message, and tells how many octets it has. Packets can be added to it all the same, and it is then ended anew.
    pub fn finish(&mut self) -> Result<usize, Fault>
        ensures answer { result ≡ finish_answer (draft self.old) }
        ensures draft { draft self.new ≡ finished (draft self.old) }
        ensures lender { self.new.octets.ghost_name ≡ self.old.octets.ghost_name }
    {
        if self.is_empty() {
            return Err(Fault::new(Refusal::MessageLength, 0, Layer::Message));
        }
        let len = length_of(self.pad());
        self.octets[SENDER] = self.sender;
        self.octets[COUNT] = len as u8;
        Ok(len)
    }
}
