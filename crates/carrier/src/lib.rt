// Where frames wait, and what may be asked of such a place.
#![tactic(auto)]

ghost use Rattle.std.specs.Prelude.{◌≡◌, ℕ, ◌-◌, List, [], ◌∷◌, ◌++◌, length, is_ok, if◌then◌else◌};
ghost use Rattle.std.specs.Option.{option_map};
ghost use Rattle.std.specs.List.{slice_get};
ghost use Rattle.vocabulary.specs.Octets.{octets_of};
ghost use Rattle.carrier.specs.Frames.{put_answer};

use vocabulary::fault::Fault;
use vocabulary::octets::Frame;

pub mod bus;
pub mod frames;

// A carrier means the frames waiting in it, in order, each by its octets, and its free places.
pub trait Carrier {
    ghost waiting: { Self → List (List ℕ) };

    ghost free: { Self → ℕ };

    // Puts a frame behind those waiting. Refused, it alters nothing.
    fn put(&mut self, frame: &[u8]) -> Result<(), Fault>
        ensures answer { result ≡ put_answer frame.now (free self.old) }
        ensures frames { waiting self.new ≡ (if is_ok result then waiting self.old ++ (frame.now ∷ []) else waiting self.old) }
        ensures places { free self.new ≡ (if is_ok result then free self.old - 1 else free self.old) };

    // How many frames wait.
    fn count(&self) -> usize
        ensures { result ≡ length (waiting self.now) };

    // How many places are free.
    fn places(&self) -> usize
        ensures { result ≡ free self.now };

    // The frame at a place, counted from 0. Past the end there is none.
    fn look(&self, place: usize) -> Option<Frame>
        ensures { option_map octets_of result ≡ slice_get (waiting self.now) place };
}
