// Packets into the buffer.
ghost use Rattle.std.specs.Prelude.{◌+◌, ◌++◌, length};
ghost use Rattle.vocabulary.specs.Settings.{trip_of};
ghost use Rattle.bits.specs.Bits.{field};
ghost use Rattle.writer.specs.Coding.{coded};
ghost use Rattle.writer.specs.Encoding.{packed};
ghost use Rattle.writer.specs.Writers.{Room, Adds};

use super::Writer;
use crate::parts::{Field, Parts};
use wire::kind::Kind;
use wire::packet::{LENGTH, NUMBER};

impl<'a> Writer<'a> {
    // A known packet with its two fields.
    fn known(&mut self, kind: Kind, first: &Field, second: &Field)
        requires { Room self.old (21 + (first.now.width + second.now.width)) }
        ensures { Adds self.old (packed (trip_of self.old.trip) kind (field first.now.width first.now.value ++ field second.now.width second.now.value)) self.new }
    {
        let number = kind.number(u8::from(self.trip));
        self.value(NUMBER, u16::from(number));
        self.value(LENGTH, kind.length() as u16);
        self.value(first.width, u16::from(first.value));
        self.value(second.width, u16::from(second.value));
    }

    // A packet for which there is room.
    pub(super) fn packet(&mut self, parts: &Parts)
        requires { Room self.old (length (coded (trip_of self.old.trip) parts.now)) }
        ensures { Adds self.old (coded (trip_of self.old.trip) parts.now) self.new }
    {
        match parts {
            Parts::Known(kind, first, second) => self.known(*kind, first, second),
            Parts::Unread(bits) => self.copy(bits),
        }
    }
}
