// A carrier that counts the puts into another.
ghost use Rattle.std.specs.Prelude.{◌≡◌, ◌+◌, ◌<◌};

use carrier::Carrier;
use vocabulary::fault::Fault;
use vocabulary::octets::Frame;

#[derive(Drop)]
pub struct Counting<C> {
    inner: C,
    puts: u64,
}

impl<C: Carrier> Counting<C> {
    // Around this carrier, with no put counted.
    pub fn new(inner: C) -> Counting<C>
        ensures inner { result.inner ≡ inner }
        ensures puts { result.puts ≡ 0 }
    {
        Counting { inner, puts: 0 }
    }

    // How many puts there were, granted or refused.
    pub fn puts(&self) -> u64
        ensures { result ≡ self.now.puts }
    {
        self.puts
    }
}

impl<C: Carrier> Carrier for Counting<C> {
    ghost waiting = { λ c. C.Carrier.waiting c.inner };

    ghost free = { λ c. C.Carrier.free c.inner };

    fn put(&mut self, frame: &[u8]) -> Result<(), Fault> {
        self.puts = self.puts.saturating_add(1);
        self.inner.put(frame)
    }

    fn count(&self) -> usize {
        self.inner.count()
    }

    fn places(&self) -> usize {
        self.inner.places()
    }

    fn look(&self, place: usize) -> Option<Frame> {
        self.inner.look(place)
    }
}
