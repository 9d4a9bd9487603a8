// A line on its way in.
ghost use Rattle.std.specs.Prelude.{◌≡◌, ◌+◌, ◌<◌, ◌≤◌, [], ◌∷◌, ◌++◌, length, take, ◌==◌};
ghost use Rattle.std.specs.Option.{option_map};
ghost use Rattle.line.specs.Waiting.{loan, room};
ghost use Rattle.script.specs.Grammar.{reading};
ghost use Rattle.script.specs.Meaning.{says};
ghost use Rattle.intake.specs.Lines.{AsTheyRead, keep, last_told, left, told};
ghost use Rattle.intake.specs.Meaning.{heard, so_far};

use few::Few;
use line::Line;
use script::event::{Event, Unreadable};

// What ends a line.
const LINE_FEED: u8 = 10;

// The octets of a line so far: the first 513, one more than a readable line has, so that a line
// of any length is held in bounded memory.
#[derive(Drop)]
pub struct Intake {
    octets: Few<u8, 513>,
}

impl Intake {
    // Nothing yet.
    pub fn new() -> Intake
        ensures { so_far result ≡ [] }
    {
        Intake { octets: Few::new() }
    }

    // Takes octets in until they are at their end or no more event can wait, and tells how many it took.
    // Each line that ends in them waits behind the others, as it reads.
    #[tactic(auto, using(crate::proofs::Taking::as_they_read))]
    pub fn take_in(&mut self, octets: &[u8], ahead: &mut Line<Result<Event, Unreadable>>) -> usize
        ensures within { result ≤ length octets.now }
        ensures stops { result < length octets.now → room ahead.new ≡ 0 }
        ensures waiting { heard ahead.new ≡ heard ahead.old ++ told (so_far self.old) (take result octets.now) }
        ensures rest { so_far self.new ≡ left (so_far self.old) (take result octets.now) }
        ensures places { room ahead.new + length (told (so_far self.old) (take result octets.now)) ≡ room ahead.old }
        ensures lender { loan ahead.new ≡ loan ahead.old }
        ensures lines { AsTheyRead }
    {
        for (taken, octet) in octets.iter().enumerate() {
            if ahead.free() == 0 {
                return taken;
            }
            self.take_octet(*octet, ahead);
        }
        octets.len()
    }

    // The input is over: what a line says that has begun and has no end.
    pub fn last(&mut self) -> Option<Result<Event, Unreadable>>
        ensures value { option_map says result ≡ last_told (so_far self.old) }
        ensures after { so_far self.new ≡ [] }
    {
        if self.octets.is_empty() {
            return None;
        }
        let event = Event::try_from(self.octets.as_slice());
        self.clear();
        Some(event)
    }

    // One octet more, while an event more can wait.
    fn take_octet(&mut self, octet: u8, ahead: &mut Line<Result<Event, Unreadable>>)
        requires { 0 < room ahead.old }
        ensures waiting { heard ahead.new ≡ heard ahead.old ++ told (so_far self.old) (octet ∷ []) }
        ensures rest { so_far self.new ≡ left (so_far self.old) (octet ∷ []) }
        ensures places { room ahead.new + length (told (so_far self.old) (octet ∷ [])) ≡ room ahead.old }
        ensures lender { loan ahead.new ≡ loan ahead.old }
    {
        if octet == LINE_FEED {
            self.end_line(ahead);
        } else {
            self.add(octet);
        }
    }

    // One octet of the line more; beyond 513 it is passed over.
    #[tactic(auto, using(crate::proofs::Taking::kept))]
    fn add(&mut self, octet: u8)
        ensures { so_far self.new ≡ keep (so_far self.old) octet }
    {
        let _ = self.octets.push(octet);
    }

    // The line is over: what it says waits behind the others, and the next line begins. An event is made here, as the place for it
    // would be cleared for each octet in `take_octet`.
    fn end_line(&mut self, ahead: &mut Line<Result<Event, Unreadable>>)
        requires { 0 < room ahead.old }
        ensures waiting { heard ahead.new ≡ heard ahead.old ++ (reading (so_far self.old) ∷ []) }
        ensures rest { so_far self.new ≡ [] }
        ensures places { room ahead.new + 1 ≡ room ahead.old }
        ensures lender { loan ahead.new ≡ loan ahead.old }
    {
        let _ = ahead.put(Event::try_from(self.octets.as_slice()));
        self.clear();
    }

    // Nothing again: the next line begins.
    fn clear(&mut self)
        ensures { so_far self.new ≡ [] }
    {
        self.octets.clear();
    }
}
