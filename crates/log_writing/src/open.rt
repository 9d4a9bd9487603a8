// A log that takes frames.
ghost use Rattle.std.specs.Prelude.{◌≡◌, ℕ, ◌-◌, ◌*◌, ◌≤◌, List, [], ◌∷◌, ◌++◌, length, is_ok, if◌then◌else◌, IsTrue, Ok};
ghost use Rattle.std.specs.List.{list_all};
ghost use Rattle.log_format.specs.Format.{entry_of, entry_size, places_in, trailer_size};
ghost use Rattle.log_format.specs.Reading.{entries_in, is_entry};

use crate::parts::{entry_of, trailer_of, write_at};
use carrier::Carrier;
use carrier::frames::{FULL, to_frame};
use log_format::closed::ClosedLog;
use log_format::{ENTRY, TRAILER, places_in, read_entry};
use vocabulary::fault::Fault;
use vocabulary::octets::Frame;

// It has `count` entries, the first at octet 0 of the lent ones. Whoever has one has entries that are right.
// The count stands beside the octets because they are lent and filled one entry after the other.
#[derive(Drop)]
pub struct OpenLog<'a> {
    octets: &'a mut [u8],
    count: usize,
    ghost fits: { count ≤ places_in (length octets.now) },
    ghost right: { IsTrue (list_all is_entry (entries_in count octets.now)) },
}

impl<'a> OpenLog<'a> {
    ghost use Rattle.log_format.specs.Closed.{closed_frames, closed_in, closed_octets};
    ghost use Rattle.log_format.specs.Reading.{read_log};
    ghost use Rattle.log_writing.specs.Writing.{closing, log_in, open_frames, open_free, open_loan, open_octets};

    // A log without frames, over these octets. They keep what they hold.
    pub fn new(octets: &'a mut [u8]) -> OpenLog<'a>
        ensures frames { open_frames result ≡ [] }
        ensures free { open_free result ≡ places_in (length octets.old) }
        ensures octets { open_octets result ≡ octets.old }
        ensures lender { open_loan result ≡ octets.entry.ghost_name }
    {
        OpenLog { octets, count: 0 }
    }

    // Closes it: the trailer is written behind the last entry, unless there are too few octets for one.
    // The log, read behind any other octets, has the frames that were put into this one.
    #[tactic(auto, using(crate::proofs::Puts::closes))]
    pub fn close(self) -> ClosedLog<'a>
        ensures frames { closed_frames result ≡ open_frames self.entry }
        ensures octets { closed_in result ≡ closing (length (open_frames self.entry)) (open_octets self.entry) }
        ensures log { closed_octets result ≡ log_in (length (open_octets self.entry)) (open_frames self.entry) }
        ensures reads { (front : List ℕ) → trailer_size ≤ length (open_octets self.entry) → read_log (front ++ closed_octets result) ≡ Ok (open_frames self.entry) }
    {
        let OpenLog { octets, count } = self;
        if octets.len() < TRAILER {
            return ClosedLog::new(octets, &[]);
        }
        let at = ENTRY * count;
        write_at(octets, at, &trailer_of(count as u16));
        let octets: &'a [u8] = octets;
        ClosedLog::new(octets, &octets[..at + TRAILER])
    }

    // The entries.
    #[tactic(auto, using(crate::proofs::Puts::first_entries))]
    fn entries(&self) -> &[[u8; ENTRY]]
        ensures { result.now ≡ entries_in self.now.count (open_octets self.now) }
    {
        let (entries, _) = self.octets.as_chunks::<ENTRY>();
        &entries[..self.count]
    }
}

impl<'a> Carrier for OpenLog<'a> {
    ghost use Rattle.carrier.specs.Frames.{put_answer};
    ghost use Rattle.log_writing.specs.Overwriting.{overwritten};
    ghost use Rattle.log_writing.specs.Writing.{open_frames, open_free, open_loan, open_octets};

    ghost waiting = { open_frames };

    ghost free = { open_free };

    #[tactic(auto, using(crate::proofs::Puts::puts))]
    fn put(&mut self, frame: &[u8]) -> Result<(), Fault>
        ensures answer { result ≡ put_answer frame.now (open_free self.old) }
        ensures frames { open_frames self.new ≡ (if is_ok result then open_frames self.old ++ (frame.now ∷ []) else open_frames self.old) }
        ensures places { open_free self.new ≡ (if is_ok result then open_free self.old - 1 else open_free self.old) }
        ensures octets { open_octets self.new ≡ (if is_ok result then overwritten (entry_size * length (open_frames self.old)) (entry_of frame.now) (open_octets self.old) else open_octets self.old) }
        ensures lender { open_loan self.new ≡ open_loan self.old }
    {
        let frame = to_frame(frame)?;
        if self.places() == 0 {
            return Err(FULL);
        }
        write_at(self.octets, ENTRY * self.count, &entry_of(&frame));
        self.count += 1;
        Ok(())
    }

    #[tactic(auto, using(crate::proofs::Puts::open_count))]
    fn count(&self) -> usize {
        self.count
    }

    fn places(&self) -> usize {
        places_in(self.octets.len()) - self.count
    }

    #[tactic(auto, using(crate::proofs::Puts::frame_at))]
    fn look(&self, place: usize) -> Option<Frame> {
        read_entry(self.entries().get(place)?)
    }
}
