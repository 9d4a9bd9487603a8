// How an event is written as a line.
ghost use Rattle.std.specs.Prelude.{Some};
ghost use Rattle.script.specs.Meaning.{said, numbers_of};
ghost use Rattle.script.specs.Printed.{printed, spaced};

use crate::event::Event;
use crate::numbers::Numbers;
use std::fmt;

// Each number behind a blank.
impl fmt::Display for Numbers {
    ghost output = { λ n. Some (spaced (numbers_of n)) };

    fn fmt<W: fmt::Write>(&self, f: &mut fmt::Formatter<W>) -> fmt::Result {
        for number in self.as_slice() {
            write!(f, " {number}")?;
        }
        Ok(())
    }
}

// The line that reads as this event.
impl fmt::Display for Event {
    ghost output = { λ e. Some (printed (said e)) };

    fn fmt<W: fmt::Write>(&self, f: &mut fmt::Formatter<W>) -> fmt::Result {
        match self {
            Event::New(numbers) => write!(f, "n{numbers}"),
            Event::Connect(number) => write!(f, "c {number}"),
            Event::Lost(number) => write!(f, "l {number}"),
            Event::FinalLoss(number) => write!(f, "f {number}"),
            Event::Message(octets) => write!(f, "m {octets}"),
            Event::Status {
                level,
                number,
                mode,
            } => write!(f, "s {level} {number} {mode}"),
            Event::Announce(number) => write!(f, "a {number}"),
            // One arm that prints `u8::from(*valid)` was tried: its proof did not close.
            Event::TrainData(true) => write!(f, "v 1"),
            Event::TrainData(false) => write!(f, "v 0"),
            Event::Run(ticks) => write!(f, "t {ticks}"),
            Event::PowerOff => write!(f, "p"),
        }
    }
}
