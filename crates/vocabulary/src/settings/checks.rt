// What is checked before settings are made.
ghost use Rattle.std.specs.Prelude.{◌≡◌, MatchResult};
ghost use Rattle.vocabulary.specs.Rules.{in_range, fits_behind, count_fits, majors_fit};
ghost use Rattle.vocabulary.specs.Settings.{Held, RefusedAt, improper as improper_at, wrong_numbers};

use crate::fault::{Fault, Layer, Refusal};
use crate::versions::Versions;
use few::Few;

// How many STMs there may be, and the highest number that one may have.
const MOST: usize = 8;

const HIGHEST: u16 = 254;

// The refusal of settings, at the place of the wrong part.
pub fn improper(place: usize) -> Fault
    ensures { result ≡ improper_at place }
{
    Fault::new(Refusal::Settings, place, Layer::Control)
}

// 1 to 8 numbers.
fn count_fits(numbers: &[u16]) -> bool
    ensures { result ≡ count_fits numbers.now }
{
    (1..=MOST).contains(&numbers.len())
}

// The highest major is 0 to 3 above the lowest.
pub fn majors_fit(versions: &Versions) -> bool
    ensures { result ≡ majors_fit versions.now }
{
    let above = versions.highest.checked_sub(versions.lowest);
    above.is_some_and(|above| above <= 3)
}

// 1 to 254.
fn in_range(number: u16) -> bool
    ensures { result ≡ in_range number }
{
    (1..=HIGHEST).contains(&number)
}

// A number in range that is none of the earlier ones.
fn fits_behind(earlier: &[u16], number: u16) -> bool
    ensures { result ≡ fits_behind earlier.now number }
{
    in_range(number) && !earlier.contains(&number)
}

// The numbers, 1 to 8 of them, each in range and different from those before it, or the refusal of
// the count or of the first number that is not.
pub fn proper(numbers: &[u16]) -> Result<Few<u8, 8>, Fault>
    ensures { MatchResult result (Held numbers.now) (RefusedAt (wrong_numbers numbers.now)) }
{
    if !count_fits(numbers) {
        return Err(improper(0));
    }
    let mut held = Few::new();
    for (i, number) in numbers.iter().enumerate() {
        if !fits_behind(&numbers[..i], *number) {
            return Err(improper(i + 1));
        }
        let _ = held.push(*number as u8);
    }
    Ok(held)
}
