// A waiting line: first in, first out, for every kind of element, in slots that are lent.
#![tactic(auto)]

ghost use Rattle.std.specs.Prelude.{◌≡◌, ◌+◌, ◌-◌, ◌≤◌, List, [], ◌∷◌, ◌++◌, length, drop, is_some, is_ok, if◌then◌else◌, ◌==◌, slice_set};
ghost use Rattle.std.specs.Option.{option_to_list};
ghost use Rattle.std.specs.List.{slice_get};

// No place was free.
pub use few::Full;

// The first element lies in slot `first` and the others behind it, round the end; there are `used` of them. The slots are lent,
// as no library here allocates, so both numbers stand beside them. Each function says that the loan stays: the language asks it
// of a struct that holds a `&mut`, here and in all that hold one.
#[derive(Drop)]
pub struct Line<'a, T> {
    slots: &'a mut [T],
    first: usize,
    used: usize,
    ghost begins: { first ≤ length slots.now - 1 },
    ghost fits: { used ≤ length slots.now },
}

impl<'a, T: Copy> Line<'a, T> {
    ghost use Rattle.line.specs.Waiting.{InOrder, lent, loan, room, slot_of, start_of, verdict, waits};

    // A line on which nothing waits. The slots keep what they hold.
    pub fn new(slots: &'a mut [T]) -> Line<'a, T>
        ensures waiting { waits result ≡ [] }
        ensures places { room result ≡ length slots.old }
        ensures start { start_of result ≡ 0 }
        ensures slots { lent result ≡ slots.old }
        ensures lender { loan result ≡ slots.entry.ghost_name }
        ensures order { InOrder [] [] result }
    {
        Line {
            slots,
            first: 0,
            used: 0,
        }
    }

    // How many elements wait.
    pub fn len(&self) -> usize
        ensures { result ≡ length (waits self.now) }
    {
        self.used
    }

    // Whether none does.
    pub fn is_empty(&self) -> bool
        ensures { result ≡ (length (waits self.now) == 0) }
    {
        self.len() == 0
    }

    // How many places are free.
    pub fn free(&self) -> usize
        ensures { result ≡ room self.now }
    {
        self.slots.len() - self.used
    }

    // The element at a place, counted from 0. Past the last there is none.
    pub fn get(&self, place: usize) -> Option<T>
        ensures { result ≡ slice_get (waits self.now) place }
    {
        // `then` was tried: its closure needs a clause of its own for the slot.
        if place < self.used {
            Some(self.slots[self.slot(place)])
        } else {
            None
        }
    }

    // Puts x behind the last element. Where no place is free this is refused, and nothing changes.
    #[tactic(auto, using(crate::proofs::Rings::front_put, crate::proofs::Rings::length_front, std::proofs::Common::append_assoc))]
    pub fn put(&mut self, x: T) -> Result<(), Full>
        ensures answer { result ≡ verdict (room self.old) }
        ensures waiting { waits self.new ≡ (if is_ok result then waits self.old ++ (x ∷ []) else waits self.old) }
        ensures places { room self.new ≡ (if is_ok result then room self.old - 1 else room self.old) }
        ensures start { start_of self.new ≡ start_of self.old }
        ensures slots { lent self.new ≡ (if is_ok result then slice_set (lent self.old) (slot_of self.old (length (waits self.old))) x else lent self.old) }
        ensures lender { loan self.new ≡ loan self.old }
        ensures order { (came went : List T) → InOrder came went self.old → InOrder (came ++ (if is_ok result then x ∷ [] else [])) went self.new }
    {
        if self.free() == 0 {
            return Err(Full);
        }
        let place = self.used;
        let slot = self.slot(place);
        self.slots[slot] = x;
        self.used += 1;
        Ok(())
    }

    // Takes the first element off, and the others move up in their order. Where none waits nothing changes.
    #[tactic(auto, using(crate::proofs::Rings::front_take, crate::proofs::Rings::first_taken))]
    pub fn take(&mut self) -> Option<T>
        ensures answer { result ≡ slice_get (waits self.old) 0 }
        ensures waiting { waits self.new ≡ drop 1 (waits self.old) }
        ensures places { room self.new ≡ (if is_some result then room self.old + 1 else room self.old) }
        ensures start { start_of self.new ≡ (if is_some result then slot_of self.old 1 else start_of self.old) }
        ensures slots { lent self.new ≡ lent self.old }
        ensures lender { loan self.new ≡ loan self.old }
        ensures order { (came went : List T) → InOrder came went self.old → InOrder came (went ++ option_to_list result) self.new }
    {
        let taken = self.get(0)?;
        self.first = self.slot(1);
        self.used -= 1;
        Some(taken)
    }

    // The slot of a place.
    fn slot(&self, place: usize) -> usize
        ensures { result ≡ slot_of self.now place }
    {
        let to_end = self.slots.len() - self.first;
        if place < to_end {
            self.first + place
        } else {
            place - to_end
        }
    }
}
