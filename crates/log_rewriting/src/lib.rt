// Reading a log and writing it again.
#![tactic(auto)]

ghost use Rattle.std.specs.Prelude.{◌≡◌, ◌*◌, ◌≤◌, ◌++◌, length, drop, IfOk};
ghost use Rattle.log_format.specs.Closed.{to_play};
ghost use Rattle.log_format.specs.Format.{entry_size};
ghost use Rattle.log_format.specs.Reading.{read_log};
ghost use Rattle.log_reading.specs.Answers.{by_frames};
ghost use Rattle.log_writing.specs.Writing.{open_frames, open_free, open_octets};
ghost use Rattle.log_rewriting.specs.Rewriting.{Again, into_octets};

use carrier::Carrier;
use carrier::frames::FULL;
use log_format::closed::{ClosedLog, Playing};
use log_reading::read_log;
use log_writing::open::OpenLog;
use vocabulary::fault::Fault;

// The log that ends a file, written again into other octets: it is the same octets there.
// A file that is no log is refused as when it is read, and octets without room as by a carrier; nothing is written then.
#[tactic(auto, using(crate::proofs::Steps::no_room))]
pub fn rewrite<'a>(file: &[u8], octets: &'a mut [u8]) -> Result<ClosedLog<'a>, Fault>
    ensures answer { by_frames result ≡ into_octets (length octets.old) (read_log file.now) }
    ensures again { IfOk result (λ l. Again file.now octets.old l) }
{
    let log = read_log(file)?;
    if octets.len() < log.as_slice().len() {
        return Err(FULL);
    }
    let mut open = OpenLog::new(octets);
    put_all(&mut open, log.play());
    Ok(open.close())
}

// Puts all frames that are still to be played into a log that has the places.
#[tactic(auto, using(crate::proofs::Steps::putting))]
fn put_all(into: &mut OpenLog<'_>, frames: Playing<'_>)
    requires { length (to_play frames) ≤ open_free into.old }
    ensures frames { open_frames into.new ≡ open_frames into.old ++ to_play frames.entry }
    ensures size { length (open_octets into.new) ≡ length (open_octets into.old) }
    ensures behind { drop (entry_size * length (open_frames into.new)) (open_octets into.new) ≡ drop (entry_size * length (open_frames into.new)) (open_octets into.old) }
{
    for frame in frames {
        into.put(frame.as_slice()).unwrap();
    }
}
