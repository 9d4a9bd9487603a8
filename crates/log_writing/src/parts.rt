// What is written of a log: an entry, and the trailer.
ghost use Rattle.std.specs.Prelude.{◌≡◌, ◌+◌, ◌≤◌, length};
ghost use Rattle.vocabulary.specs.Octets.{octets_of};
ghost use Rattle.log_format.specs.Format.{entry_of, most_frames, trailer_of};
ghost use Rattle.log_writing.specs.Overwriting.{overwritten};

use log_format::{ENTRY, MARK, TRAILER};
use vocabulary::octets::Frame;

// A frame's entry.
pub(crate) fn entry_of(frame: &Frame) -> [u8; ENTRY]
    ensures { result ≡ entry_of (octets_of frame.now) }
{
    let octets = frame.as_slice();
    let mut entry = [0; ENTRY];
    entry[0] = octets.len() as u8;
    write_at(&mut entry, 1, octets);
    entry
}

// Writes some octets over those from a place on.
pub(crate) fn write_at(octets: &mut [u8], at: usize, part: &[u8])
    requires { at + length part.now ≤ length octets.old }
    ensures { octets.new ≡ overwritten at part.now octets.old }
{
    octets[at..at + part.len()].copy_from_slice(part);
}

// The trailer behind so many entries.
pub(crate) fn trailer_of(count: u16) -> [u8; TRAILER]
    requires { count ≤ most_frames }
    ensures { result ≡ trailer_of count }
{
    let [mark0, mark1, mark2, mark3] = MARK;
    let [count_high, count_low] = count.to_be_bytes();
    let [distance_high, distance_low] = (ENTRY as u16 * count).to_be_bytes();
    [
        mark0,
        mark1,
        mark2,
        mark3,
        count_high,
        count_low,
        distance_high,
        distance_low,
    ]
}
