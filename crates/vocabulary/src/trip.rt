// The packet number of the trip notice, the National Trip Procedure.
ghost use Rattle.std.specs.Prelude.{◌≡◌, ◌<◌, false, if◌then◌else◌, Some, None};
ghost use Rattle.std.specs.Option.{option_map};
ghost use Rattle.std.specs.Result.{result_ok};
ghost use Rattle.vocabulary.specs.Trips.{taken};

// Any packet number that no other known packet has.
#[derive(Clone, Copy)]
pub struct TripNumber {
    number: u8,
    ghost free: { taken number ≡ false },
    ghost octet: { number < 256 },
}

// A packet number that another known packet has.
#[derive(Clone, Copy, PartialEq, Eq, Debug)]
pub struct Taken;

// This number, unless it is taken. `wire::kind::Kind` has these numbers too; it stands above this crate.
impl TryFrom<u8> for TripNumber {
    ghost use Rattle.vocabulary.specs.Settings.{trip_of};

    type Error = Taken;

    ghost try_from_gives = { λ n r. option_map trip_of (result_ok r) ≡ (if taken n then None else Some n) };

    fn try_from(number: u8) -> Result<TripNumber, Taken> {
        match number {
            0 | 1 | 5 | 13 | 14 | 15 => Err(Taken),
            _ => Ok(TripNumber { number }),
        }
    }
}

// The packet number.
impl From<TripNumber> for u8 {
    ghost use Rattle.vocabulary.specs.Settings.{trip_of};

    ghost from_gives = { λ t n. n ≡ trip_of t };

    fn from(trip: TripNumber) -> u8 {
        trip.number
    }
}
