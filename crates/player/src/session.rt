// A session of the player.
ghost use Rattle.std.specs.Prelude.{◌≡◌, None};
ghost use Rattle.vocabulary.specs.Octets.{octets_of};
ghost use Rattle.script.specs.Meaning.{numbers_of, says};
ghost use Rattle.player.specs.Answers.{answer_to, on_message, on_new, outcome, standing_after, standing, standing_new, versions as player_versions};

use crate::answer::Answer;
use script::event::{Event, Unreadable};
use script::numbers::Numbers;
use vocabulary::fault::Fault;
use vocabulary::octets::Octets;
use vocabulary::settings::Settings;
use vocabulary::versions::Versions;
use wire::message::Message;

// The packet number of the trip notice here: each program sets its own.
const TRIP: u8 = 200;

// Majors 3 and 4, minors 0. A constant of this type has no contract, and proofs have no name for its ghost field.
fn versions() -> Versions
    ensures { result ≡ player_versions }
{
    Versions {
        lowest: 3,
        highest: 4,
        minors: [0; 4],
    }
}

// What stands: the settings of the latest new control that was granted.
#[derive(Clone, Copy)]
pub struct Session {
    settings: Option<Settings>,
}

impl Session {
    // Nothing stands yet.
    pub fn new() -> Session
        ensures { standing result ≡ None }
    {
        Session { settings: None }
    }

    // The answer to what a line said, if it was readable.
    pub fn answer(&mut self, line: Result<Event, Unreadable>) -> Answer
        ensures answer { result ≡ answer_to (standing self.old) (says line) }
        ensures after { standing self.new ≡ standing_after (standing self.old) (says line) }
    {
        let answer = match line {
            Ok(Event::New(numbers)) => self.start(&numbers),
            Ok(Event::Message(octets)) => self.hear(&octets),
            _ => Ok(Answer::NoCall),
        };
        answer.unwrap_or_else(|fault| Answer::Refused(fault.cause))
    }

    // A new control over these STMs is granted, and then stands; or it is refused, and what stood goes on.
    fn start(&mut self, numbers: &Numbers) -> Result<Answer, Fault>
        ensures answer { outcome result ≡ on_new (numbers_of numbers.now) }
        ensures after { standing self.new ≡ standing_new (standing self.old) (numbers_of numbers.now) }
    {
        self.settings = Some(Settings::new(numbers.as_slice(), versions(), TRIP)?);
        Ok(Answer::Granted)
    }

    // A message that the reader refuses is refused.
    fn hear(&self, octets: &Octets<255>) -> Result<Answer, Fault>
        ensures { outcome result ≡ on_message (standing self.now) (octets_of octets.now) }
    {
        if let Some(settings) = self.settings {
            Message::read(octets.as_slice(), settings.trip())?;
        }
        Ok(Answer::NoCall)
    }
}
