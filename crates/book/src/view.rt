// What a book sees of one STM.
ghost use Rattle.std.specs.Prelude.{◌≡◌, Some};
ghost use Rattle.std.specs.Fmt.{padded};
ghost use Rattle.vocabulary.specs.Numbers.{Numbered};
ghost use Rattle.book.specs.Views.{want_number, want_name, wants, level_seen};

use std::fmt;
use vocabulary::level::Level;
use vocabulary::mode::Mode;
use vocabulary::numbers::UnknownNumber;
use vocabulary::order::Order;
use vocabulary::state::State;

// A state that an STM has asked for and has not been ordered to yet. No other is ever kept.
#[derive(Clone, Copy, PartialEq, Eq, Debug)]
pub enum Want {
    Configuration = 2,
    DataEntry = 3,
    ColdStandby = 4,
}

// The number that the request bore.
impl From<Want> for u8 {
    ghost from_gives = { λ want number. number ≡ want_number want };

    fn from(want: Want) -> u8 {
        want as u8
    }
}

// The want with a number, if there is one.
impl TryFrom<u8> for Want {
    type Error = UnknownNumber;

    ghost try_from_gives = { Numbered want_number wants };

    fn try_from(number: u8) -> Result<Want, UnknownNumber> {
        match number {
            2 => Ok(Want::Configuration),
            3 => Ok(Want::DataEntry),
            4 => Ok(Want::ColdStandby),
            _ => Err(UnknownNumber),
        }
    }
}

// A want prints the name of the state that was asked for.
impl fmt::Display for Want {
    ghost output = { λ want. Some (want_name want) };

    ghost styled_output = { λ want spec. Some (padded spec (want_name want)) };

    fn fmt<W: fmt::Write>(&self, f: &mut fmt::Formatter<W>) -> fmt::Result {
        f.pad(match self {
            Want::Configuration => "CO",
            Want::DataEntry => "DE",
            Want::ColdStandby => "CS",
        })
    }
}

// The level in force as one STM sees it.
#[derive(Clone, Copy, PartialEq, Eq, Debug)]
pub enum LevelSeen {
    // An ETCS level, in which no national system is in charge.
    NotNtc,
    // Level NTC with this STM in charge.
    Own,
    // Level NTC with another national system in charge.
    Anothers,
}

impl LevelSeen {
    // What this level, with this national number, is to the STM with the number `stm`.
    pub fn new(level: Level, national: u8, stm: u8) -> LevelSeen
        ensures { result ≡ level_seen level national stm }
    {
        match level {
            Level::Ntc => if national == stm {
                LevelSeen::Own
            } else {
                LevelSeen::Anothers
            },
            Level::Zero | Level::One | Level::Two | Level::Three => LevelSeen::NotNtc,
        }
    }
}

// The state of affairs of one STM. An STM is at HS or at DA if it holds that state or is on its way
// there by an order.
#[derive(Clone, Copy, PartialEq, Eq, Debug)]
pub struct View {
    // The state that the STM holds.
    pub held: State,
    // What it has asked for.
    pub want: Option<Want>,
    // The order that it has not answered yet.
    pub open: Option<Order>,
    // Whether the train data is valid.
    pub train_data: bool,
    // The level in force.
    pub level: LevelSeen,
    // The mode in force.
    pub mode: Mode,
    // Whether a transition to this STM's level is announced.
    pub announced: bool,
    // Whether another STM is at Hot Standby.
    pub other_at_hs: bool,
    // Whether another STM is at Data Available.
    pub other_at_da: bool,
}
