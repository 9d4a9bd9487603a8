// The states of an STM.
ghost use Rattle.std.specs.Prelude.{◌≡◌, Some};
ghost use Rattle.std.specs.Fmt.{padded};
ghost use Rattle.vocabulary.specs.Numbers.{Numbered};
ghost use Rattle.vocabulary.specs.States.{state_name, state_number, states};

use crate::numbers::UnknownNumber;
use std::fmt;

// What an STM reports of itself. `NoPower` is never sent: a unit is there before its first report.
#[derive(Clone, Copy, PartialEq, Eq, Debug)]
pub enum State {
    NoPower = 0,
    PowerOn = 1,
    Configuration = 2,
    DataEntry = 3,
    ColdStandby = 4,
    HotStandby = 6,
    DataAvailable = 7,
    Failure = 8,
}

// The number of a state.
impl From<State> for u8 {
    ghost from_gives = { λ s n. n ≡ state_number s };

    fn from(state: State) -> u8 {
        state as u8
    }
}

// The state with a number, if there is one.
impl TryFrom<u8> for State {
    type Error = UnknownNumber;

    ghost try_from_gives = { Numbered state_number states };

    fn try_from(number: u8) -> Result<State, UnknownNumber> {
        match number {
            0 => Ok(State::NoPower),
            1 => Ok(State::PowerOn),
            2 => Ok(State::Configuration),
            3 => Ok(State::DataEntry),
            4 => Ok(State::ColdStandby),
            6 => Ok(State::HotStandby),
            7 => Ok(State::DataAvailable),
            8 => Ok(State::Failure),
            _ => Err(UnknownNumber),
        }
    }
}

// The letters of a state.
impl fmt::Display for State {
    ghost output = { λ s. Some (state_name s) };

    ghost styled_output = { λ s spec. Some (padded spec (state_name s)) };

    fn fmt<W: fmt::Write>(&self, f: &mut fmt::Formatter<W>) -> fmt::Result {
        f.pad(match self {
            State::NoPower => "NP",
            State::PowerOn => "PO",
            State::Configuration => "CO",
            State::DataEntry => "DE",
            State::ColdStandby => "CS",
            State::HotStandby => "HS",
            State::DataAvailable => "DA",
            State::Failure => "FA",
        })
    }
}
