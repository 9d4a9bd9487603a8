// The ETCS level.
ghost use Rattle.std.specs.Prelude.{◌≡◌};
ghost use Rattle.vocabulary.specs.Numbers.{Numbered};
ghost use Rattle.vocabulary.specs.Levels.{level_number, levels};

use crate::numbers::UnknownNumber;

// Levels as SUBSET-026 numbers them: in level NTC a national system, named by its number, is in charge.
#[derive(Clone, Copy, PartialEq, Eq, Debug)]
pub enum Level {
    Zero = 0,
    Ntc = 1,
    One = 2,
    Two = 3,
    Three = 4,
}

// The number of a level.
impl From<Level> for u8 {
    ghost from_gives = { λ l n. n ≡ level_number l };

    fn from(level: Level) -> u8 {
        level as u8
    }
}

// The level with a number, if there is one.
impl TryFrom<u16> for Level {
    type Error = UnknownNumber;

    ghost try_from_gives = { Numbered level_number levels };

    fn try_from(number: u16) -> Result<Level, UnknownNumber> {
        match number {
            0 => Ok(Level::Zero),
            1 => Ok(Level::Ntc),
            2 => Ok(Level::One),
            3 => Ok(Level::Two),
            4 => Ok(Level::Three),
            _ => Err(UnknownNumber),
        }
    }
}
