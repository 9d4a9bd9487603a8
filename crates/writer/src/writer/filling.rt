// Bits into the buffer.
ghost use Rattle.std.specs.Prelude.{◌<◌, ◌≤◌, [], ◌∷◌, length};
ghost use Rattle.bits.specs.Bits.{field};
ghost use Rattle.bits.specs.Pieces.{bits};
ghost use Rattle.writer.specs.Writers.{Room, Adds};

use super::Writer;
use bits::LAST;
use bits::bits::Bits;
use wire::message::HEAD;

impl<'a> Writer<'a> {
    // One bit more.
    fn bit(&mut self, b: u8)
        requires { (Room self.old 1) × (b < 2) }
        ensures { Adds self.old (b ∷ []) self.new }
    {
        let next = self.waiting * 2 + b;
        if self.count == LAST {
            self.octets[HEAD + self.full] = next;
            self.full += 1;
            self.waiting = 0;
            self.count = 0;
        } else {
            self.waiting = next;
            self.count += 1;
        }
    }

    // The n lowest bits of a number, the most significant first.
    pub(super) fn value(&mut self, n: usize, v: u16)
        requires { (n ≤ 13) × (Room self.old n) }
        ensures { Adds self.old (field n v) self.new }
    {
        for k in (0..n).rev() {
            self.bit(((v >> k) % 2) as u8);
        }
    }

    // Bits as they are. Here and above are two sources of bits, with a loop of one line for each.
    pub(super) fn copy(&mut self, unread: &Bits)
        requires { Room self.old (length (bits unread.now)) }
        ensures { Adds self.old (bits unread.now) self.new }
    {
        for b in unread.iter() {
            self.bit(b);
        }
    }
}
