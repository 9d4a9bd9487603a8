// Reading a log, which may end a longer file.
#![tactic(auto)]

ghost use Rattle.std.specs.Prelude.{◌≡◌, ◌*◌, ◌/◌, ◌<◌, length, not, position, if◌then◌else◌, Some, None, IfOk, IfSome};
ghost use Rattle.log_format.specs.Format.{entry_size};
ghost use Rattle.log_format.specs.Reading.{count_in, entries_in, is_entry, is_trailer, no_log, read_log};
ghost use Rattle.log_reading.specs.Answers.{EndsFile, by_frames};

use log_format::closed::ClosedLog;
use log_format::{ENTRY, MARK, MOST, TRAILER, is_entry};
use vocabulary::fault::{Fault, Layer, Refusal};

// The log that ends a file, or where it fails to be one.
pub fn read_log(file: &[u8]) -> Result<ClosedLog<'_>, Fault>
    ensures answer { by_frames result ≡ read_log file.now }
    ensures log { IfOk result (λ l. EndsFile file.now l) }
{
    let (before, trailer) = file.split_last_chunk::<TRAILER>().ok_or(no_log(0))?;
    let at = before.len();
    let count = count_in(trailer, at).ok_or(no_log(at))?;
    let start = at - ENTRY * count;
    let log = &file[start..];
    match wrong_entry(log) {
        Some(place) => Err(no_log(start + ENTRY * place)),
        None => Ok(ClosedLog::new(file, log)),
    }
}

// Octets that are no log, by the octet that shows it.
fn no_log(place: usize) -> Fault
    ensures { result ≡ no_log place }
{
    Fault::new(Refusal::Log, place, Layer::Log)
}

// How many entries a trailer counts, with so many octets before it. One that is wrong, or that counts more of them, counts none.
fn count_in(trailer: &[u8; TRAILER], before: usize) -> Option<usize>
    ensures { result ≡ (if is_trailer trailer.now before then Some (count_in trailer.now) else None) }
{
    let [.., count_high, count_low, distance_high, distance_low] = *trailer;
    let count = usize::from(u16::from_be_bytes([count_high, count_low]));
    let distance = usize::from(u16::from_be_bytes([distance_high, distance_low]));
    let right = trailer.starts_with(&MARK)
        && count <= MOST
        && distance == ENTRY * count
        && distance <= before;
    right.then_some(count)
}

// The place of a log's first entry that is none, counted from 0. What is left behind the entries is the trailer.
fn wrong_entry(log: &[u8]) -> Option<usize>
    ensures first { result ≡ position (λ e. not (is_entry e)) (entries_in (length log.now / entry_size) log.now) }
    ensures within { IfSome result (λ i. entry_size * i < length log.now) }
{
    let (entries, _) = log.as_chunks::<ENTRY>();
    entries.iter().position(|entry| !is_entry(entry))
}
