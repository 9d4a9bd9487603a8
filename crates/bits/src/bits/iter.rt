// Walking over bits.
ghost use Rattle.std.specs.Iterator.{YieldsFirst, item_count};
ghost use Rattle.bits.specs.Pieces.{ahead};

use super::Bits;

// A walk over bits, from the first on.
#[derive(Drop)]
pub struct Iter<'a> {
    pub(super) bits: Bits<'a>,
}

impl<'a> Iterator for Iter<'a> {
    type Item = u8;

    ghost next_gives = { YieldsFirst ahead };

    ghost remaining = { item_count ahead };

    fn next(&mut self) -> Option<u8> {
        let (first, rest) = self.bits.split_first()?;
        self.bits = rest;
        Some(first)
    }
}
