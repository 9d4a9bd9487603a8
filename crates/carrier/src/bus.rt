// Bus memory: frames on a waiting line, in frame places that are handed over.
ghost use Rattle.std.specs.Prelude.{◌≡◌, ◌+◌, ◌-◌, [], ◌∷◌, ◌++◌, length, drop, is_some, is_ok, if◌then◌else◌, slice_set};
ghost use Rattle.std.specs.Option.{option_map};
ghost use Rattle.std.specs.List.{slice_get};
ghost use Rattle.vocabulary.specs.Octets.{octets_of};
ghost use Rattle.carrier.specs.Buses.{bus_frames, bus_free, bus_loan, bus_slot, bus_slots, bus_start, frames_of};
ghost use Rattle.carrier.specs.Frames.{put_answer};

use crate::Carrier;
use crate::frames::{FULL, to_frame};
use line::Line;
use vocabulary::fault::Fault;
use vocabulary::octets::Frame;

#[derive(Drop)]
pub struct Bus<'a> {
    line: Line<'a, Frame>,
}

impl<'a> Bus<'a> {
    // Bus memory with as many free places as frame places are handed over. They keep what they hold.
    pub fn new(places: &'a mut [Frame]) -> Bus<'a>
        ensures frames { bus_frames result ≡ [] }
        ensures free { bus_free result ≡ length places.old }
        ensures start { bus_start result ≡ 0 }
        ensures slots { bus_slots result ≡ frames_of places.old }
        ensures lender { bus_loan result ≡ places.entry.ghost_name }
    {
        Bus {
            line: Line::new(places),
        }
    }

    // Takes off the first frame, which frees its place. Where none waits nothing changes.
    pub fn take(&mut self) -> Option<Frame>
        ensures answer { option_map octets_of result ≡ slice_get (bus_frames self.old) 0 }
        ensures frames { bus_frames self.new ≡ drop 1 (bus_frames self.old) }
        ensures free { bus_free self.new ≡ (if is_some result then bus_free self.old + 1 else bus_free self.old) }
        ensures start { bus_start self.new ≡ (if is_some result then bus_slot self.old 1 else bus_start self.old) }
        ensures slots { bus_slots self.new ≡ bus_slots self.old }
        ensures lender { bus_loan self.new ≡ bus_loan self.old }
    {
        self.line.take()
    }
}

impl Carrier for Bus<'_> {
    ghost waiting = { bus_frames };

    ghost free = { bus_free };

    // With clauses of its own an implementation repeats the trait's.
    #[tactic(auto, using(crate::proofs::Framed::by_octets_each))]
    fn put(&mut self, frame: &[u8]) -> Result<(), Fault>
        ensures answer { result ≡ put_answer frame.now (bus_free self.old) }
        ensures frames { bus_frames self.new ≡ (if is_ok result then bus_frames self.old ++ (frame.now ∷ []) else bus_frames self.old) }
        ensures places { bus_free self.new ≡ (if is_ok result then bus_free self.old - 1 else bus_free self.old) }
        ensures start { bus_start self.new ≡ bus_start self.old }
        ensures slots { bus_slots self.new ≡ (if is_ok result then slice_set (bus_slots self.old) (bus_slot self.old (length (bus_frames self.old))) frame.now else bus_slots self.old) }
        ensures lender { bus_loan self.new ≡ bus_loan self.old }
    {
        let frame = to_frame(frame)?;
        self.line.put(frame).map_err(|_| FULL)
    }

    fn count(&self) -> usize {
        self.line.len()
    }

    fn places(&self) -> usize {
        self.line.free()
    }

    fn look(&self, place: usize) -> Option<Frame> {
        self.line.get(place)
    }
}
