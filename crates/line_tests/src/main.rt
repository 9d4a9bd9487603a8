// Runs the waiting line at numbers and at frames, and proves what a client of it can say.
#![tactic(auto)]

ghost use Rattle.std.specs.Prelude.{◌≡◌, ◌-◌, ◌≤◌, [], ◌∷◌, ◌++◌, length, is_ok, if◌then◌else◌, Some, None, nat_eq, slice_set};
ghost use Rattle.vocabulary.specs.Octets.{octets_of};
ghost use Rattle.line.specs.Waiting.{room};
ghost use Rattle.line_tests.specs.Frames.{frames_on};

use line::{Full, Line};
use std::{fmt, io};
use vocabulary::octets::Frame;

// What prints in options and slices as it prints by itself.
#[derive(Clone, Copy)]
struct Plain<T>(T);

impl<T: fmt::Display> fmt::Debug for Plain<T> {
    fn fmt<W: fmt::Write>(&self, f: &mut fmt::Formatter<W>) -> fmt::Result {
        write!(f, "{}", self.0)
    }
}

// Two numbers put on a new line, and the first taken off.
fn first_of_two(slots: &mut [u32], a: u32, b: u32) -> Option<u32>
    ensures taken { result ≡ (if nat_eq (length slots.old) 0 then None else Some a) }
    ensures slots { slots.new ≡ slice_set (slice_set slots.old 0 a) 1 b }
{
    let mut line = Line::new(slots);
    let _ = line.put(a);
    let _ = line.put(b);
    line.take()
}

// A frame put on a line, which means its octets.
fn put_frame(line: &mut Line<Frame>, frame: Frame) -> Result<(), Full>
    ensures frames { frames_on line.new ≡ (if is_ok result then frames_on line.old ++ (octets_of frame ∷ []) else frames_on line.old) }
    ensures places { room line.new ≡ (if is_ok result then room line.old - 1 else room line.old) }
{
    line.put(frame)
}

// A frame of octets that fit one.
fn filled(octets: &[u8]) -> Frame
    requires some { 1 ≤ length octets.now }
    requires within { length octets.now ≤ 16 }
{
    Frame::try_from(octets).unwrap()
}

fn put_all<T: Copy + fmt::Display>(
    rt: &HostRuntime,
    line: &mut Line<T>,
    xs: &[T],
) -> io::Result<()> {
    for x in xs {
        println!(rt; "put {x}: {:?}", line.put(*x))?;
    }
    Ok(())
}

fn look<T: Copy + fmt::Display>(rt: &HostRuntime, line: &Line<T>) -> io::Result<()> {
    for place in 0..4 {
        println!(rt; "place {place}: {:?}", line.get(place).map(Plain))?;
    }
    println!(rt;
        "{} wait, {} free, empty: {}",
        line.len(),
        line.free(),
        line.is_empty()
    )
}

// A line is no iterator, since looking at it takes nothing off: it is emptied by taking.
fn take_all<T: Copy + fmt::Display>(rt: &HostRuntime, line: &mut Line<T>) -> io::Result<()> {
    while let Some(x) = line.take() {
        println!(rt; "take: {x}")?;
    }
    Ok(())
}

// Puts more than there are slots, takes one, puts another round the end, looks, and takes them all.
fn run<T: Copy + fmt::Display>(
    rt: &HostRuntime,
    line: &mut Line<T>,
    xs: &[T],
    last: T,
) -> io::Result<()> {
    put_all(rt, line, xs)?;
    println!(rt; "take: {:?}", line.take().map(Plain))?;
    println!(rt; "put {last}: {:?}", line.put(last))?;
    look(rt, line)?;
    take_all(rt, line)?;
    look(rt, line)
}

fn numbers(rt: &HostRuntime) -> io::Result<()> {
    let mut slots = [0; 3];
    let mut line = Line::new(&mut slots);
    run(rt, &mut line, &[1, 2, 3, 4], 5)?;
    println!(rt; "slots: {slots:?}")
}

fn frames(rt: &HostRuntime) -> io::Result<()> {
    let mut slots = [filled(&[0]); 2];
    let mut line = Line::new(&mut slots);
    run(
        rt,
        &mut line,
        &[filled(&[0xA2; 2]), filled(&[0xA3; 3]), filled(&[0xA4; 4])],
        filled(&[0xA5; 5]),
    )?;
    println!(rt; "put frame: {:?}", put_frame(&mut line, filled(&[0xA6; 6])))?;
    println!(rt; "slots: {:?}", slots.map(Plain))
}

fn main(rt: HostRuntime) -> io::Result<()> {
    numbers(&rt)?;
    frames(&rt)?;
    let mut slots = [9; 3];
    let taken = first_of_two(&mut slots, 1, 2);
    println!(rt; "two put: {taken:?} taken, slots {slots:?}")
}
