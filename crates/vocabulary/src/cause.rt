// Why the control holds an STM for failed.
ghost use Rattle.std.specs.Prelude.{◌≡◌};
ghost use Rattle.vocabulary.specs.Numbers.{Numbered};
ghost use Rattle.vocabulary.specs.Causes.{cause_number, causes};

use crate::numbers::UnknownNumber;

// The causes of failure, with the conditions of SUBSET-035 that they stand for.
#[derive(Clone, Copy, PartialEq, Eq, Debug)]
pub enum Cause {
    // A request that the held state does not allow (A16).
    Request = 1,
    // A report that nothing called for (B16).
    Report = 2,
    // No answer in time to an order to CO, DE, HS or, unconditionally, to CS (C16).
    Time = 3,
    // No answer in time to the order to DA (D16).
    TimeToDataAvailable = 4,
    // No answer in time to the conditional order, and no trip notice came (E16).
    TimeWithoutNotice = 5,
    // No answer in time to the conditional order after the latest trip notice (F16).
    TimeAfterNotice = 6,
    // Final disconnection, or a greeting with a major that the settings do not have (H16).
    FinalDisconnection = 7,
    // The unit reported Failure itself.
    OwnReport = 8,
}

// The number of a cause.
impl From<Cause> for u8 {
    ghost from_gives = { λ c n. n ≡ cause_number c };

    fn from(cause: Cause) -> u8 {
        cause as u8
    }
}

// The cause with a number, if there is one.
impl TryFrom<u8> for Cause {
    type Error = UnknownNumber;

    ghost try_from_gives = { Numbered cause_number causes };

    fn try_from(number: u8) -> Result<Cause, UnknownNumber> {
        match number {
            1 => Ok(Cause::Request),
            2 => Ok(Cause::Report),
            3 => Ok(Cause::Time),
            4 => Ok(Cause::TimeToDataAvailable),
            5 => Ok(Cause::TimeWithoutNotice),
            6 => Ok(Cause::TimeAfterNotice),
            7 => Ok(Cause::FinalDisconnection),
            8 => Ok(Cause::OwnReport),
            _ => Err(UnknownNumber),
        }
    }
}
