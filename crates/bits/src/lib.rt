// Octets as bits, the most significant first.
#![tactic(auto)]

ghost use Rattle.std.specs.Prelude.{◌≡◌, ◌+◌, ◌-◌, ◌/◌, ◌%◌, ◌<◌, slice_index};
ghost use Rattle.std.specs.Option.{option_map};
ghost use Rattle.bits.specs.Bits.{bits_of, window_at};

pub mod bits;

// How many bits an octet has.
pub const OCTET: usize = 8;

// The last bit of an octet.
pub const LAST: usize = OCTET - 1;

// The octet that a bit stands in.
fn octet_of(i: usize) -> usize
    ensures { result ≡ i / 8 }
{
    i / OCTET
}

// How many bits of its octet stand behind a bit.
fn behind(i: usize) -> usize
    ensures { result ≡ 7 - i % 8 }
{
    LAST - i % OCTET
}

// The bit at a place, 0 or 1; behind the last octet every bit is 0.
#[tactic(auto, using(crate::proofs::BitLaws::bit_at, crate::proofs::BitLaws::bit_past))]
pub fn bit(octets: &[u8], i: usize) -> u8
    ensures { result ≡ slice_index (bits_of octets.now) i }
{
    let octet = octets.get(octet_of(i)).copied().unwrap_or(0);
    (octet >> behind(i)) % 2
}

// How many octets n bits reach into, from the bit i of the first on.
fn reach(i: usize, n: usize) -> usize
    requires { i < 8 }
    ensures { result ≡ (i + n + 7) / 8 }
{
    n / OCTET + (i + n % OCTET + LAST) / OCTET
}

// The octets from the one on that the bit i stands in, if all of the n bits from i on lie in the octets.
#[tactic(auto, using(crate::proofs::BitLaws::window_there))]
pub fn window(octets: &[u8], i: usize, n: usize) -> Option<&[u8]>
    ensures { option_map (λ x. x.now) result ≡ window_at octets.now i n }
{
    let held = octets.get(octet_of(i)..)?;
    (reach(i % OCTET, n) <= held.len()).then_some(held)
}
