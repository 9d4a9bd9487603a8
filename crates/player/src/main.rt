// The player: it reads a script on standard input and answers each line.
#![tactic(auto)]

ghost use Rattle.std.specs.Prelude.{◌≡◌, ◌+◌, ◌<◌, length, OnOk};
ghost use Rattle.line.specs.Waiting.{room, waits};

mod answer;
mod session;

use answer::Answer;
use intake::intake::Intake;
use line::Line;
use script::event::{Event, Unreadable};
use session::Session;
use std::io;
use std::io::{BufWriter, Read, Write};

// How many lines are read ahead, and how many octets at a time.
const AHEAD: usize = 32;

const CHUNK: usize = 8192;

// The player at work: what stands, the line on its way in, the lines that wait, and where the answers go.
#[derive(Drop)]
struct Player<'a, W> {
    session: Session,
    intake: Intake,
    ahead: Line<'a, Result<Event, Unreadable>>,
    out: W,
}

impl<'a, W: Write> Player<'a, W> {
    // Writes an answer.
    fn write(&mut self, answer: Answer) -> io::Result<()>
        ensures { self.new.ahead ≡ self.old.ahead }
    {
        writeln!(self.out, "{answer}")
    }

    // Answers the lines that wait, in order.
    fn answer_waiting(&mut self) -> io::Result<()>
        ensures { OnOk result (room self.new.ahead ≡ room self.old.ahead + length (waits self.old.ahead)) }
    {
        while let Some(line) = self.ahead.take() {
            let answer = self.session.answer(line);
            self.write(answer)?;
        }
        Ok(())
    }

    // Takes a chunk of input in and answers its lines.
    fn play(&mut self, chunk: &[u8]) -> io::Result<()>
        requires { 0 < room self.old.ahead }
        ensures { OnOk result (0 < room self.new.ahead) }
    {
        let mut rest = chunk;
        while !rest.is_empty() {
            let taken = self.intake.take_in(rest, &mut self.ahead);
            rest = &rest[taken..];
            self.answer_waiting()?;
        }
        Ok(())
    }

    // The input is over: a line that has begun and has no end is answered too.
    fn finish(&mut self) -> io::Result<()> {
        if let Some(line) = self.intake.last() {
            let answer = self.session.answer(line);
            self.write(answer)?;
        }
        self.out.flush()
    }
}

fn main(rt: HostRuntime) -> io::Result<()> {
    let mut input = rt.stdin();
    let out = BufWriter::new(rt.alloc(), rt.stdout())?;
    let mut slots = [Err(Unreadable); AHEAD];
    let mut player = Player {
        session: Session::new(),
        intake: Intake::new(),
        ahead: Line::new(&mut slots),
        out,
    };
    let mut chunk = [0u8; CHUNK];
    // Input may never end, and each loop is proved to: so it is a counted one.
    for _ in 0..u64::MAX {
        let count = input.read(&mut chunk)?;
        if count == 0 {
            break;
        }
        player.play(&chunk[..count])?;
    }
    player.finish()
}
