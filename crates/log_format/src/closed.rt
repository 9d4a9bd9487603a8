// A log that takes no more frames.
ghost use Rattle.std.specs.Prelude.{◌≡◌};
ghost use Rattle.std.specs.Iterator.{YieldsFirstBy, item_count};
ghost use Rattle.vocabulary.specs.Octets.{octets_of};
ghost use Rattle.log_format.specs.Closed.{closed_frames, closed_in, closed_octets, to_play};
ghost use Rattle.log_format.specs.Reading.{frames_of_log};

use crate::{ENTRY, read_entry};
use vocabulary::octets::Frame;

// All octets in which the log lies, those of the log itself, from its first entry to its trailer's end, and how many of its
// entries are played at most: a log of which only the first are played is a value too.
#[derive(Drop)]
pub struct ClosedLog<'a> {
    pub octets: &'a [u8],
    pub log: &'a [u8],
    pub count: usize,
}

// A closed log that is being played: what is left of it, and how many entries of that are played at most.
#[derive(Drop)]
pub struct Playing<'a> {
    rest: &'a [u8],
    left: usize,
}

impl<'a> ClosedLog<'a> {
    // The log whose own octets are `log`, and which lies in `octets`. Its frames are those of its entries, up to the first that is none.
    pub fn new(octets: &'a [u8], log: &'a [u8]) -> ClosedLog<'a>
        ensures octets { closed_in result ≡ octets.now }
        ensures log { closed_octets result ≡ log.now }
        ensures frames { closed_frames result ≡ frames_of_log log.now }
    {
        ClosedLog {
            octets,
            log,
            count: log.len() / ENTRY,
        }
    }

    // The log's own octets.
    pub fn as_slice(&self) -> &[u8]
        ensures { result.now ≡ closed_octets self.now }
    {
        self.log
    }

    // All octets in which the log lies.
    pub fn all_octets(&self) -> &[u8]
        ensures { result.now ≡ closed_in self.now }
    {
        self.octets
    }

    // Plays it, which uses it up: its frames are handed out in order.
    pub fn play(self) -> Playing<'a>
        ensures { to_play result ≡ closed_frames self.entry }
    {
        Playing {
            rest: self.log,
            left: self.count,
        }
    }
}

impl Iterator for Playing<'_> {
    type Item = Frame;

    ghost next_gives = { YieldsFirstBy octets_of to_play };

    ghost remaining = { item_count to_play };

    fn next(&mut self) -> Option<Frame> {
        let left = self.left.checked_sub(1)?;
        let (entry, rest) = self.rest.split_first_chunk::<ENTRY>()?;
        let frame = read_entry(entry)?;
        self.rest = rest;
        self.left = left;
        Some(frame)
    }
}
