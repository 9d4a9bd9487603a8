// The reader of a line.
ghost use Rattle.std.specs.Prelude.{◌≡◌, length, take, nat_le};
ghost use Rattle.std.specs.Option.{option_map, option_and_then};
ghost use Rattle.std.specs.Result.{result_ok};
ghost use Rattle.script.specs.Grammar.{call as call_of, came, one_part, one_number, no_part, numbers, three, flag, reading, sized_octets};
ghost use Rattle.script.specs.Meaning.{says, numbers_of, to_come};
ghost use Rattle.script.specs.Printed.{ReadsBack};

use crate::event::{Event, Unreadable};
use crate::numbers::Numbers;
use crate::parts::Parts;
use crate::text::{read_number, read_octets};

// The most characters that a line may have.
const LONGEST: usize = 512;

// The one part that is to come.
fn one_part<'a>(mut parts: Parts<'a>) -> Option<&'a [u8]>
    ensures { option_map (λ x. x.now) result ≡ one_part (to_come parts.entry) }
{
    let part = parts.next()?;
    parts.next().is_none().then_some(part)
}

// The one number that is to come.
fn one_number(parts: Parts) -> Result<u16, Unreadable>
    ensures { result_ok result ≡ one_number (to_come parts.entry) }
{
    one_part(parts).and_then(read_number).ok_or(Unreadable)
}

// All parts that are to come, as numbers; the first nine are kept.
fn all_numbers(parts: Parts) -> Option<Numbers>
    ensures { option_map numbers_of result ≡ option_map (take 9) (numbers (to_come parts.entry)) }
{
    let mut read = Numbers::none();
    for part in parts {
        read.add(read_number(part)?);
    }
    Some(read)
}

// Level, national number and mode.
fn status(parts: Parts) -> Result<Event, Unreadable>
    ensures { says result ≡ option_and_then three (numbers (to_come parts.entry)) }
{
    let read = all_numbers(parts).ok_or(Unreadable)?;
    let &[level, number, mode] = read.as_slice() else {
        return Err(Unreadable);
    };
    Ok(Event::Status {
        level,
        number,
        mode,
    })
}

// 0 for invalid train data, 1 for valid.
fn train_data(number: u16) -> Result<Event, Unreadable>
    ensures { says result ≡ flag number }
{
    match number {
        0 => Ok(Event::TrainData(false)),
        1 => Ok(Event::TrainData(true)),
        _ => Err(Unreadable),
    }
}

// A message by its octets.
fn message(parts: Parts) -> Result<Event, Unreadable>
    ensures { says result ≡ option_map came (option_and_then sized_octets (one_part (to_come parts.entry))) }
{
    let part = one_part(parts).ok_or(Unreadable)?;
    let Some(octets) = read_octets(part) else {
        return Err(Unreadable);
    };
    Ok(Event::Message(octets))
}

// Power-off, with no part behind it.
fn power_off(mut parts: Parts) -> Result<Event, Unreadable>
    ensures { says result ≡ no_part (to_come parts.entry) }
{
    match parts.next() {
        Some(_) => Err(Unreadable),
        None => Ok(Event::PowerOff),
    }
}

// The call that a letter chooses, with the parts behind it. The `match` is the table of the calls, as plain as any.
// An event is as large as the longest message, so each is made once, as the answer, and `?` is put to its small parts.
fn call(letter: u8, parts: Parts) -> Result<Event, Unreadable>
    ensures { says result ≡ call_of letter (to_come parts.entry) }
{
    match letter {
        b'n' => Ok(Event::New(all_numbers(parts).ok_or(Unreadable)?)),
        b'c' => Ok(Event::Connect(one_number(parts)?)),
        b'l' => Ok(Event::Lost(one_number(parts)?)),
        b'f' => Ok(Event::FinalLoss(one_number(parts)?)),
        b'm' => message(parts),
        b's' => status(parts),
        b'a' => Ok(Event::Announce(one_number(parts)?)),
        b'v' => train_data(one_number(parts)?),
        b't' => Ok(Event::Run(one_number(parts)?)),
        b'p' => power_off(parts),
        _ => Err(Unreadable),
    }
}

// What a line says, if it is readable. Any event, printed and read again, is that event.
impl TryFrom<&[u8]> for Event {
    type Error = Unreadable;

    ghost try_from_gives = { λ line r. says r ≡ reading line.now };

    #[tactic(auto, using(crate::proofs::ReadingBack::reads_back))]
    fn try_from(line: &[u8]) -> Result<Event, Unreadable>
        ensures value { says result ≡ reading line.now }
        ensures back { ReadsBack }
    {
        if line.len() > LONGEST {
            return Err(Unreadable);
        }
        let mut parts = Parts::of(line);
        let Some([letter]) = parts.next() else {
            return Err(Unreadable);
        };
        call(*letter, parts)
    }
}
