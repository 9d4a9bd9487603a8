// Reads messages of the published STM test sequences, tells what they say, writes them again, and tells whether the same
// octets came back.
#![tactic(auto)]

ghost use Rattle.std.specs.Prelude.{◌≡◌, ◌+◌, ◌≤◌, length};
ghost use Rattle.std.specs.Option.{IfSome};

use crate::sequences::STREAM;
use roundtrip::rewrite::rewrite_message;
use std::io;
use vocabulary::fault::Fault;
use vocabulary::trip::TripNumber;
use wire::message::{HEAD, MOST, Message, Packets};
use wire::packet::Packet;

mod sequences;

// The packet number of the trip notice here: each program sets its own.
const TRIP: u8 = 200;

// What a packet says.
fn show(rt: &HostRuntime, packet: &Packet) -> io::Result<()> {
    match *packet {
        Packet::Version { major, minor } => print!(rt; " version {major}.{minor}"),
        Packet::Status { level, mode } => print!(rt; " status level {level} mode {mode}"),
        Packet::Request(state) => print!(rt; " request {state}"),
        Packet::Order(state) => print!(rt; " order {state}"),
        Packet::Report(state) => print!(rt; " report {state}"),
        Packet::TripNotice => print!(rt; " trip notice"),
        Packet::Other { start, bits, .. } => {
            let len = bits.len();
            print!(rt; " unread {len} bits from bit {start}")
        }
    }
}

// What the packets say that a walk has before it.
fn show_all(rt: &HostRuntime, packets: Packets) -> io::Result<()> {
    for packet in packets {
        show(rt, &packet)?;
    }
    Ok(())
}

// What is refused, and where, in this program's own words: a fault prints itself without them.
fn show_fault(rt: &HostRuntime, fault: &Fault) -> io::Result<()> {
    println!(rt;
        " refused {} at {}, {}",
        fault.number(),
        fault.place,
        fault.layer
    )
}

// The message is written again: whether the same octets come back.
fn comes_back(octets: &[u8], trip: TripNumber) -> bool {
    let mut buffer = [0u8; MOST];
    let len = rewrite_message(&mut buffer, octets, trip);
    len == Ok(octets.len()) && buffer.starts_with(octets)
}

// What the message in these octets says. They are free for the next one then.
fn play(rt: &HostRuntime, receive: &mut [u8], trip: TripNumber) -> io::Result<()> {
    let message = match Message::read(receive, trip) {
        Ok(message) => message,
        Err(fault) => return show_fault(rt, &fault),
    };
    let sender = message.sender();
    print!(rt; "{sender}:")?;
    show_all(rt, message.packets())?;
    let back = comes_back(receive, trip);
    println!(rt; "; the same octets: {back}")?;
    receive.fill(0);
    Ok(())
}

// The message at the front of a stream, whose second octet is its length, and what stands behind it.
fn split_message(stream: &[u8]) -> Option<(&[u8], &[u8])>
    ensures { IfSome result (λ p. (2 ≤ length p.0.now) × ((length p.0.now ≤ 255) × (length p.0.now + length p.1.now ≡ length stream.now))) }
{
    let len = usize::from(*stream.get(1)?);
    if len < HEAD {
        return None;
    }
    stream.split_at_checked(len)
}

// The messages of a stream, one after the other. It may end in what is no message, which is told: so this is no iterator.
// Each is copied into a receive buffer, as a unit has one.
fn play_all(rt: &HostRuntime, stream: &[u8], trip: TripNumber) -> io::Result<()> {
    let mut rest = stream;
    while rest.len() >= HEAD {
        let Some((message, behind)) = split_message(rest) else {
            return println!(rt; "no message");
        };
        let mut receive = [0u8; MOST];
        receive[..message.len()].copy_from_slice(message);
        play(rt, &mut receive[..message.len()], trip)?;
        rest = behind;
    }
    Ok(())
}

fn main(rt: HostRuntime) -> io::Result<()> {
    match TripNumber::try_from(TRIP) {
        Ok(trip) => play_all(&rt, &STREAM, trip),
        Err(_) => println!(rt; "no trip number"),
    }
}
