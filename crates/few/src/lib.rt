// A few values, held by value.
#![tactic(auto)]

ghost use Rattle.std.specs.Prelude.{◌≡◌, ◌≤◌, [], ◌∷◌, ◌++◌, length, ⊤, Ok, Err, is_ok, nat_lt, nat_le, if◌then◌else◌, ◌==◌};

use std::alloc::AllocError;

// No place is free.
#[derive(Clone, Copy, PartialEq, Eq, Debug)]
pub struct Full;

// At most N values, in their order. What the places behind them hold means nothing. No library here allocates, so this is an
// array and how much of it counts.
pub struct Few<T, const N: usize> {
    items: [T; N],
    len: usize,
    ghost full: { length items ≡ N },
    ghost within: { len ≤ N },
}

// No derive copies a struct that is generic in a type and has ghost fields, so the copy is written here.
impl<T: Copy, const N: usize> Clone for Few<T, N> {
    ghost is_clone = { λ few copy. copy ≡ few };

    ghost is_infallible = { λ _. ⊤ };

    fn clone(&self) -> Result<Few<T, N>, AllocError> {
        Ok(*self)
    }
}

impl<T: Copy, const N: usize> Copy for Few<T, N> {}

impl<T: Copy + Default, const N: usize> Few<T, N> {
    ghost use Rattle.few.specs.Few.{held};

    // None yet.
    pub fn new() -> Few<T, N>
        ensures { held result ≡ [] }
    {
        Few {
            items: [T::default(); N],
            len: 0,
        }
    }
}

impl<T: Copy, const N: usize> Few<T, N> {
    ghost use Rattle.few.specs.Few.{held};

    // One value more behind the last. Where no place is free this is refused, and nothing changes.
    pub fn push(&mut self, x: T) -> Result<(), Full>
        ensures answer { result ≡ (if nat_lt (length (held self.old)) N then Ok tt else Err (record {})) }
        ensures held { held self.new ≡ (if is_ok result then held self.old ++ (x ∷ []) else held self.old) }
    {
        if self.len >= N {
            return Err(Full);
        }
        self.items[self.len] = x;
        self.len += 1;
        Ok(())
    }

    // The values.
    pub fn as_slice(&self) -> &[T]
        ensures { result.now ≡ held self.now }
    {
        &self.items[..self.len]
    }

    // How many they are.
    pub fn len(&self) -> usize
        ensures { result ≡ length (held self.now) }
    {
        self.as_slice().len()
    }

    // Whether there is none.
    pub fn is_empty(&self) -> bool
        ensures { result ≡ (length (held self.now) == 0) }
    {
        self.len == 0
    }

    // These values in the place of those held. Where they are too many this is refused, and nothing changes.
    pub fn fill(&mut self, items: &[T]) -> Result<(), Full>
        ensures answer { result ≡ (if nat_le (length items.now) N then Ok tt else Err (record {})) }
        ensures held { held self.new ≡ (if is_ok result then items.now else held self.old) }
    {
        if items.len() > N {
            return Err(Full);
        }
        self.items[..items.len()].copy_from_slice(items);
        self.len = items.len();
        Ok(())
    }

    // None any more.
    pub fn clear(&mut self)
        ensures { held self.new ≡ [] }
    {
        self.len = 0;
    }
}

// These values, if they are at most N.
impl<'a, T: Copy + Default, const N: usize> TryFrom<&'a [T]> for Few<T, N> {
    ghost use Rattle.few.specs.Few.{Fits};

    type Error = Full;

    ghost try_from_gives = { λ items r. Fits N items.now r };

    fn try_from(items: &'a [T]) -> Result<Few<T, N>, Full> {
        let mut few = Few::new();
        few.fill(items)?;
        Ok(few)
    }
}
