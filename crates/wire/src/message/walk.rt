// Walking over the packets of a message.
ghost use Rattle.std.specs.Prelude.{◌≡◌, ◌≤◌, length, nat_lt, IfOk, MatchResult};
ghost use Rattle.std.specs.Iterator.{item_count};
ghost use Rattle.std.specs.Result.{result_err};
ghost use Rattle.vocabulary.specs.Settings.{trip_of};
ghost use Rattle.wire.specs.Messages.{walked, body_bits};
ghost use Rattle.wire.specs.Packets.{read_packet, told, HandsOn, StartsAt};
ghost use Rattle.wire.specs.Readers.{left, Past};
ghost use Rattle.wire.specs.Walkers.{Step, ahead, walk_octets};

use super::{HEAD, Packets};
use crate::kind::Kind;
use crate::packet::{HEADER, Packet};
use crate::reader::{body, header, may_have};
use bits::OCTET;
use bits::bits::Bits;
use vocabulary::fault::{Fault, Layer, Refusal};
use vocabulary::trip::TripNumber;

const BODY: usize = OCTET * HEAD;

impl<'a> Packets<'a> {
    // The bits behind the first two octets of a message.
    pub(super) fn over(octets: &'a [u8], trip: TripNumber) -> Packets<'a>
        requires { length octets.now ≤ 255 }
        ensures bits { left result ≡ body_bits octets.now }
        ensures at { result.at ≡ 16 }
        ensures trip { result.trip ≡ trip }
        ensures octets { walk_octets result ≡ octets.now }
    {
        Packets {
            octets,
            at: BODY,
            left: Bits::new(octets, BODY, (OCTET * octets.len()).saturating_sub(BODY)),
            trip,
        }
    }

    // What is left is padding: so few bits are no packet.
    fn is_padding(&self) -> bool
        ensures { result ≡ nat_lt (length (left self.now)) 8 }
    {
        self.left.len() < OCTET
    }

    // The next packet, or why there is none.
    fn packet(&mut self) -> Result<Packet<'a>, Fault>
        ensures answer { told result ≡ read_packet (trip_of self.old.trip) self.old.at (left self.old) }
        ensures start { IfOk result (StartsAt self.old.at) }
        ensures unread { IfOk result (HandsOn (walk_octets self.old)) }
        ensures octets { walk_octets self.new ≡ walk_octets self.old }
        ensures past { MatchResult result (λ _. Past self.old self.new) (λ _. self.new ≡ self.old) }
    {
        let cut = Fault::new(Refusal::PacketCut, self.at, Layer::Packet);
        let misfit = Fault::new(Refusal::PacketLength, self.at, Layer::Packet);
        let (number, length) = header(&self.left).ok_or(cut)?;
        if length < HEADER {
            return Err(misfit);
        }
        let (packet, rest) = self.left.split_at(length).ok_or(cut)?;
        let kind = Kind::from_number(number, u8::from(self.trip));
        if !may_have(kind, length) {
            return Err(misfit);
        }
        let start = self.at;
        self.at += length;
        self.left = rest;
        Ok(body(kind, self.octets, start, &packet))
    }

    // All packets that are left are right, or the first that is wrong is refused. What a call refuses ends it, so this is a
    // loop with `?`: the walk itself yields packets alone.
    pub(super) fn check(mut self) -> Result<(), Fault>
        ensures { result_err result ≡ (walked (trip_of self.entry.trip) self.entry.at (left self.entry)).stop }
    {
        while !self.is_padding() {
            self.packet()?;
        }
        Ok(())
    }
}

impl<'a> Iterator for Packets<'a> {
    type Item = Packet<'a>;

    ghost next_gives = { Step };

    ghost remaining = { item_count ahead };

    // The next packet, until there is none.
    fn next(&mut self) -> Option<Packet<'a>> {
        if self.is_padding() {
            None
        } else {
            self.packet().ok()
        }
    }
}
