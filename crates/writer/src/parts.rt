// What a packet is written as.
ghost use Rattle.std.specs.Prelude.{◌≤◌};

use bits::bits::Bits;
use wire::kind::Kind;

pub(crate) mod ops;

// A value and the bits that it has.
#[derive(Clone, Copy)]
pub(crate) struct Field {
    pub(crate) value: u8,
    pub(crate) width: usize,
    ghost narrow: { width ≤ 8 },
}

// A known packet with its two fields, or the bits of an unread one.
#[derive(Clone, Copy)]
pub(crate) enum Parts<'a> {
    Known(Kind, Field, Field),
    Unread(Bits<'a>),
}
