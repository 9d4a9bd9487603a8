// The packets that are known here, by number and length.
ghost use Rattle.std.specs.Prelude.{◌≡◌};
ghost use Rattle.vocabulary.specs.Numbers.{case_of};
ghost use Rattle.wire.specs.Kinds.{kind_number, kind_length, kinds};

use crate::packet::{HEADER, LEVEL, MODE, STATE, VERSION};

// Which packet it is, of those that are known here.
#[derive(Clone, Copy, PartialEq, Eq, Debug)]
pub enum Kind {
    // STM-1
    Version,
    // STM-5
    Status,
    // STM-13
    Request,
    // STM-14
    Order,
    // STM-15
    Report,
    // The National Trip Procedure, whose number is a setting.
    TripNotice,
}

// A trip notice's number is a setting, so neither way is a `From` or a `TryFrom`. The setting is an octet here, not the type of
// trip numbers: every octet has an answer.
impl Kind {
    // The packet's number, where a trip notice has the number `trip`.
    pub fn number(self, trip: u8) -> u8
        ensures { result ≡ kind_number trip self }
    {
        match self {
            Kind::Version => 1,
            Kind::Status => 5,
            Kind::Request => 13,
            Kind::Order => 14,
            Kind::Report => 15,
            Kind::TripNotice => trip,
        }
    }

    // The packet's length in bits, its number and its length field included.
    pub fn length(self) -> usize
        ensures { result ≡ kind_length self }
    {
        match self {
            Kind::Version => HEADER + 2 * VERSION,
            Kind::Status => HEADER + LEVEL + MODE,
            Kind::Request | Kind::Order | Kind::Report => HEADER + STATE,
            Kind::TripNotice => HEADER,
        }
    }

    // The known packet with this number, if there is one.
    pub fn from_number(number: u8, trip: u8) -> Option<Kind>
        ensures { result ≡ case_of (kind_number trip) kinds number }
    {
        match number {
            1 => Some(Kind::Version),
            5 => Some(Kind::Status),
            13 => Some(Kind::Request),
            14 => Some(Kind::Order),
            15 => Some(Kind::Report),
            n if n == trip => Some(Kind::TripNotice),
            _ => None,
        }
    }
}
