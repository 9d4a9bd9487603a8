// A log of frames, as octets: what is common to writing and reading it.
#![tactic(auto)]

ghost use Rattle.std.specs.Prelude.{◌≡◌};
ghost use Rattle.std.specs.Option.{option_map};
ghost use Rattle.vocabulary.specs.Octets.{octets_of};
ghost use Rattle.log_format.specs.Format.{places_in};
ghost use Rattle.log_format.specs.Reading.{blank, is_entry, read_entry};

use vocabulary::octets::Frame;

pub mod closed;

// The octets of an entry and of the trailer, and the most frames of a log.
pub const ENTRY: usize = 17;

pub const TRAILER: usize = 8;

pub const MOST: usize = 3840;

// What every trailer begins with: it is written at closing and compared at reading.
pub const MARK: [u8; 4] = *b"STMT";

// How many places a log over so many octets has.
pub fn places_in(octets: usize) -> usize
    ensures { result ≡ places_in octets }
{
    (octets.saturating_sub(TRAILER) / ENTRY).min(MOST)
}

// Whether octets are an entry.
pub fn is_entry(octets: &[u8]) -> bool
    ensures { result ≡ is_entry octets.now }
{
    read_entry(octets).is_some()
}

// Whether octets are all 00.
fn is_blank(octets: &[u8]) -> bool
    ensures { result ≡ blank octets.now }
{
    octets.iter().all(|octet| *octet == 0)
}

// The frame in an entry. Octets that are no entry have none.
pub fn read_entry(octets: &[u8]) -> Option<Frame>
    ensures { option_map octets_of result ≡ read_entry octets.now }
{
    if octets.len() != ENTRY {
        return None;
    }
    let (len, filled) = octets.split_first()?;
    let (frame, fill) = filled.split_at_checked(usize::from(*len))?;
    if !is_blank(fill) {
        return None;
    }
    Frame::try_from(frame).ok()
}
