// Making bits, taking them apart, and reading them.
ghost use Rattle.std.specs.Prelude.{◌≡◌, ◌^◌, ◌<◌, ◌≤◌, [], ◌∷◌, length, MatchOption, IfSome};
ghost use Rattle.std.specs.Int.Digits.{number_from_digits};
ghost use Rattle.bits.specs.Bits.{number_at, stretch};
ghost use Rattle.bits.specs.Pieces.{ahead, bits, Parts};

use super::Bits;
use super::iter::Iter;
use crate::{OCTET, bit, window};

// How many bits a number has at most.
const WIDEST: usize = 16;

impl<'a> Bits<'a> {
    // The bits of octets from the bit `start` on, `len` of them; none if the octets do not hold them all.
    #[tactic(auto, using(crate::proofs::BitLaws::window_bits))]
    pub fn new(octets: &'a [u8], start: usize, len: usize) -> Bits<'a>
        ensures { bits result ≡ stretch octets.now start len }
    {
        let Some(held) = window(octets, start, len) else {
            return Bits {
                octets: &octets[0..0],
                offset: 0,
                len: 0,
            };
        };
        Bits {
            octets: held,
            offset: start % OCTET,
            len,
        }
    }

    // How many they are.
    #[tactic(auto, using(crate::proofs::BitLaws::length_lying))]
    pub fn len(&self) -> usize
        ensures { result ≡ length (bits self.now) }
    {
        self.len
    }

    // The octets in which they lie (borrowed, not copied), and the bit of the first of these at which they start.
    #[tactic(auto, using(crate::proofs::BitLaws::length_lying))]
    pub fn place(&self) -> (&'a [u8], usize)
        ensures bits { stretch result.0.now result.1 (length (bits self.now)) ≡ bits self.now }
        ensures first { result.1 < 8 }
    {
        (self.octets, self.offset)
    }

    // The first n of them and those behind, if there are so many.
    #[tactic(auto, using(crate::proofs::BitLaws::length_lying, crate::proofs::BitLaws::front_lying, crate::proofs::BitLaws::back_lying))]
    pub fn split_at(&self, n: usize) -> Option<(Bits<'a>, Bits<'a>)>
        ensures { MatchOption result (length (bits self.now) < n) (λ p. Parts self.now n p.0 p.1) }
    {
        if self.len < n {
            return None;
        }
        let front = Bits {
            octets: self.octets,
            offset: self.offset,
            len: n,
        };
        let at = self.offset + n % OCTET;
        let back = Bits {
            octets: &self.octets[n / OCTET + at / OCTET..],
            offset: at % OCTET,
            len: self.len - n,
        };
        Some((front, back))
    }

    // The first of them and those behind, if there is one.
    #[tactic(auto, using(crate::proofs::BitLaws::first_lying, crate::proofs::BitLaws::length_lying, crate::proofs::BitLaws::bit_small))]
    pub fn split_first(&self) -> Option<(u8, Bits<'a>)>
        ensures { MatchOption result (bits self.now ≡ []) (λ p. (bits self.now ≡ p.0 ∷ bits p.1) × (p.0 < 2)) }
    {
        let (_, back) = self.split_at(1)?;
        Some((bit(self.octets, self.offset), back))
    }

    // A walk over them.
    pub fn iter(&self) -> Iter<'a>
        ensures { ahead result ≡ bits self.now }
    {
        Iter { bits: *self }
    }

    // The number that they write.
    #[tactic(auto, using(crate::proofs::BitLaws::narrow, crate::proofs::BitLaws::value_small, crate::proofs::BitLaws::under_lying))]
    fn value(&self) -> u16
        requires { length (bits self.now) ≤ 16 }
        ensures number { result ≡ number_from_digits 2 (bits self.now) }
        ensures small { result < 2 ^ length (bits self.now) }
    {
        let mut v = 0;
        for b in self.iter() {
            v = v * 2 + u16::from(b);
        }
        v
    }

    // The number that the n bits from the bit `from` on write, if they are there, and no more than 16.
    pub fn number(&self, from: usize, n: usize) -> Option<u16>
        ensures number { result ≡ number_at (bits self.now) from n }
        ensures small { IfSome result (λ v. v < 2 ^ n) }
    {
        let (_, rest) = self.split_at(from)?;
        let (bits, _) = rest.split_at(n)?;
        // `then` was tried: its proof did not close.
        if n <= WIDEST {
            Some(bits.value())
        } else {
            None
        }
    }
}
