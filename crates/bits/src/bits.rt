// Bits that lie in octets.
ghost use Rattle.std.specs.Prelude.{◌+◌, ◌*◌, ◌<◌, ◌≤◌, length};

pub mod iter;
pub mod ops;

// `len` bits, from the bit `offset` of the first octet on.
#[derive(Clone, Copy)]
pub struct Bits<'a> {
    octets: &'a [u8],
    offset: usize,
    len: usize,
    ghost first: { offset < 8 },
    ghost lies: { offset + len ≤ 8 * length octets.now },
}
