// The numbers of an `n` line.
ghost use Rattle.std.specs.Prelude.{◌≡◌, [], ◌∷◌, ◌++◌, take};
ghost use Rattle.script.specs.Meaning.{numbers_of};

use few::Few;

// At most nine numbers: one more than there may be, so that too many are seen.
#[derive(Clone, Copy)]
pub struct Numbers {
    kept: Few<u16, 9>,
}

impl Numbers {
    // No numbers.
    pub fn none() -> Numbers
        ensures { numbers_of result ≡ [] }
    {
        Numbers { kept: Few::new() }
    }

    // One number more; beyond nine it is passed over.
    pub fn add(&mut self, number: u16)
        ensures { numbers_of self.new ≡ take 9 (numbers_of self.old ++ (number ∷ [])) }
    {
        let _ = self.kept.push(number);
    }

    // The numbers.
    pub fn as_slice(&self) -> &[u16]
        ensures { result.now ≡ numbers_of self.now }
    {
        self.kept.as_slice()
    }
}
