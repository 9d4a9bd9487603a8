// What the player answers to a line.
ghost use Rattle.std.specs.Prelude.{Some};
ghost use Rattle.player.specs.Answers.{shown_as};

use std::fmt;
use vocabulary::fault::Refusal;

// Granted with no orders; refused; or not a line that can be answered. Three cases that print themselves, and so no `Result`.
#[derive(Clone, Copy, PartialEq, Eq, Debug)]
pub enum Answer {
    Granted,
    Refused(Refusal),
    NoCall,
}

// A refusal is printed by its number.
impl fmt::Display for Answer {
    ghost output = { λ a. Some (shown_as a) };

    fn fmt<W: fmt::Write>(&self, f: &mut fmt::Formatter<W>) -> fmt::Result {
        match self {
            Answer::Granted => write!(f, "ok 0 0 0 0 0"),
            Answer::Refused(refusal) => write!(f, "no {}", u8::from(*refusal)),
            Answer::NoCall => write!(f, "line"),
        }
    }
}
