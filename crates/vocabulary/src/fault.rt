// What is handed back when something is refused.
ghost use Rattle.std.specs.Prelude.{◌≡◌, Some};
ghost use Rattle.std.specs.Fmt.{padded};
ghost use Rattle.vocabulary.specs.Numbers.{Numbered};
ghost use Rattle.vocabulary.specs.Refusals.{refusal_number, refusals, layer_name, fault_at, fault_number, fault_text};

use crate::numbers::UnknownNumber;
use std::fmt;

// The layer that refuses.
#[derive(Clone, Copy, PartialEq, Eq, Debug)]
pub enum Layer {
    Control,
    Message,
    Packet,
    Carrier,
    Log,
}

impl Layer {
    // The layer's name, for people: the text itself, which printing does not hand out.
    pub fn name(self) -> &'static str
        ensures { result.now ≡ layer_name self }
    {
        match self {
            Layer::Control => "control",
            Layer::Message => "message",
            Layer::Packet => "packet",
            Layer::Carrier => "carrier",
            Layer::Log => "log",
        }
    }
}

// A layer prints its name.
impl fmt::Display for Layer {
    ghost output = { λ l. Some (layer_name l) };

    ghost styled_output = { λ l spec. Some (padded spec (layer_name l)) };

    fn fmt<W: fmt::Write>(&self, f: &mut fmt::Formatter<W>) -> fmt::Result {
        f.pad(self.name())
    }
}

// Why something is refused.
#[derive(Clone, Copy, PartialEq, Eq, Debug)]
pub enum Refusal {
    // Settings that do not agree with themselves.
    Settings = 1,
    // No STM of the settings has this number.
    UnknownStm = 2,
    // A message under 5 octets, over 255 or of another length than it says, or one without a packet.
    MessageLength = 3,
    // A packet that the message's bits do not hold.
    PacketCut = 4,
    // A length field that no such packet has.
    PacketLength = 5,
    // A link that is not as the call needs it.
    Link = 6,
    // No connection any more: the link is final, or the unit has failed.
    Barred = 7,
    // STM-1 or STM-15 out of place.
    Greeting = 8,
    // A value outside its range.
    Range = 9,
    // Octets that are no log.
    Log = 10,
    // No room.
    Full = 11,
    // What does not fit its field, or its frame.
    Misfit = 12,
}

// The number of a refusal.
impl From<Refusal> for u8 {
    ghost from_gives = { λ r n. n ≡ refusal_number r };

    fn from(refusal: Refusal) -> u8 {
        refusal as u8
    }
}

// The refusal with a number, if there is one.
impl TryFrom<u8> for Refusal {
    type Error = UnknownNumber;

    ghost try_from_gives = { Numbered refusal_number refusals };

    fn try_from(number: u8) -> Result<Refusal, UnknownNumber> {
        match number {
            1 => Ok(Refusal::Settings),
            2 => Ok(Refusal::UnknownStm),
            3 => Ok(Refusal::MessageLength),
            4 => Ok(Refusal::PacketCut),
            5 => Ok(Refusal::PacketLength),
            6 => Ok(Refusal::Link),
            7 => Ok(Refusal::Barred),
            8 => Ok(Refusal::Greeting),
            9 => Ok(Refusal::Range),
            10 => Ok(Refusal::Log),
            11 => Ok(Refusal::Full),
            12 => Ok(Refusal::Misfit),
            _ => Err(UnknownNumber),
        }
    }
}

// A refusal with the place that it is about, a bit of a message, an octet of a file or a part of
// the settings, and the layer that refuses. Where there is no place it is 0: a rule of the answers, so no `Option`.
#[derive(Clone, Copy, PartialEq, Eq, Debug)]
pub struct Fault {
    pub cause: Refusal,
    pub place: usize,
    pub layer: Layer,
}

impl Fault {
    // This refusal, at this place of this layer.
    pub fn new(cause: Refusal, place: usize, layer: Layer) -> Fault
        ensures { result ≡ fault_at cause place layer }
    {
        Fault {
            cause,
            place,
            layer,
        }
    }

    // The number of the refusal.
    pub fn number(&self) -> u8
        ensures { result ≡ fault_number self.now }
    {
        u8::from(self.cause)
    }
}

// Number, place and layer of a fault.
impl fmt::Display for Fault {
    ghost output = { λ f. Some (fault_text f) };

    fn fmt<W: fmt::Write>(&self, f: &mut fmt::Formatter<W>) -> fmt::Result {
        write!(f, "{} {} {}", self.number(), self.place, self.layer)
    }
}
