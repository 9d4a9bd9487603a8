// The ETCS mode.
ghost use Rattle.std.specs.Prelude.{◌≡◌};
ghost use Rattle.vocabulary.specs.Numbers.{Numbered};
ghost use Rattle.vocabulary.specs.Levels.{mode_number, modes};

use crate::numbers::UnknownNumber;

// Modes as SUBSET-026 numbers them.
#[derive(Clone, Copy, PartialEq, Eq, Debug)]
pub enum Mode {
    FullSupervision = 0,
    OnSight = 1,
    StaffResponsible = 2,
    Shunting = 3,
    Unfitted = 4,
    Sleeping = 5,
    StandBy = 6,
    Trip = 7,
    PostTrip = 8,
    SystemFailure = 9,
    Isolation = 10,
    NonLeading = 11,
    LimitedSupervision = 12,
    NationalSystem = 13,
    Reversing = 14,
    PassiveShunting = 15,
}

// The number of a mode.
impl From<Mode> for u8 {
    ghost from_gives = { λ m n. n ≡ mode_number m };

    fn from(mode: Mode) -> u8 {
        mode as u8
    }
}

// The mode with a number, if there is one.
impl TryFrom<u16> for Mode {
    type Error = UnknownNumber;

    ghost try_from_gives = { Numbered mode_number modes };

    fn try_from(number: u16) -> Result<Mode, UnknownNumber> {
        match number {
            0 => Ok(Mode::FullSupervision),
            1 => Ok(Mode::OnSight),
            2 => Ok(Mode::StaffResponsible),
            3 => Ok(Mode::Shunting),
            4 => Ok(Mode::Unfitted),
            5 => Ok(Mode::Sleeping),
            6 => Ok(Mode::StandBy),
            7 => Ok(Mode::Trip),
            8 => Ok(Mode::PostTrip),
            9 => Ok(Mode::SystemFailure),
            10 => Ok(Mode::Isolation),
            11 => Ok(Mode::NonLeading),
            12 => Ok(Mode::LimitedSupervision),
            13 => Ok(Mode::NationalSystem),
            14 => Ok(Mode::Reversing),
            15 => Ok(Mode::PassiveShunting),
            _ => Err(UnknownNumber),
        }
    }
}
