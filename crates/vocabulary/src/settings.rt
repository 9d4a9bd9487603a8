// What a control is set to.
ghost use Rattle.std.specs.Prelude.{◌≡◌, ◌≤◌, true, false, length, is_some};
ghost use Rattle.few.specs.Few.{held};
ghost use Rattle.vocabulary.specs.Rules.{wrong_number, majors_fit};

use crate::fault::Fault;
use crate::trip::TripNumber;
use crate::versions::Versions;
use checks::{improper, majors_fit, proper};
use few::Few;

mod checks;

// The places of the majors and of the trip number in a refusal.
const MAJORS: usize = 9;

const TRIP: usize = 10;

// The STMs by their numbers, 1 to 8 of them, all different, in the order in which they are served;
// the versions that are spoken; and the packet number of the trip notice.
#[derive(Clone, Copy)]
pub struct Settings {
    numbers: Few<u8, 8>,
    versions: Versions,
    trip: TripNumber,
    ghost some: { 1 ≤ length (held numbers) },
    ghost proper: { is_some (wrong_number (held numbers)) ≡ false },
    ghost spoken: { majors_fit versions ≡ true },
}

impl Settings {
    ghost use Rattle.vocabulary.specs.Rules.{minor_of};
    ghost use Rattle.vocabulary.specs.Settings.{agreed, answered, settings_of};

    // Settings of these parts, or a refusal with the place of the first wrong one. The numbers are plain: this is what checks them.
    pub fn new(numbers: &[u16], versions: Versions, trip: u8) -> Result<Settings, Fault>
        ensures { answered result ≡ settings_of numbers.now versions trip }
    {
        let numbers = proper(numbers)?;
        if !majors_fit(&versions) {
            return Err(improper(MAJORS));
        }
        let trip = TripNumber::try_from(trip).map_err(|_| improper(TRIP))?;
        Ok(Settings {
            numbers,
            versions,
            trip,
        })
    }

    // The numbers of the STMs, in their order.
    pub fn numbers(&self) -> &[u8]
        ensures { result.now ≡ (agreed self.now).numbers }
    {
        self.numbers.as_slice()
    }

    // The minor that goes with a major, if the major is one of the settings.
    pub fn minor(&self, major: u8) -> Option<u8>
        ensures { result ≡ minor_of (agreed self.now).versions major }
    {
        let versions = &self.versions;
        if major > versions.highest {
            return None;
        }
        let above = major.checked_sub(versions.lowest)?;
        Some(versions.minors[usize::from(above)])
    }

    // The packet number of the trip notice.
    pub fn trip(&self) -> TripNumber
        ensures { result.number ≡ (agreed self.now).trip }
    {
        self.trip
    }
}
