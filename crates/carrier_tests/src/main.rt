// Tries the carriers and the log at their limits, and prints what they answer.
#![tactic(auto)]

mod counting;

use carrier::Carrier;
use carrier::bus::Bus;
use counting::Counting;
use log_reading::read_log;
use log_rewriting::rewrite;
use log_writing::open::OpenLog;
use std::io::{self, ErrorKind};
use vocabulary::fault::Fault;
use vocabulary::octets::Frame;

// Three octets, and a log of one frame behind them.
const LONGER_FILE: [u8; 28] = [
    1, 2, 3, 6, 0x0A, 6, 0x0E, 0, 0xC9, 0, 0, 0, 0, 0, 0, 0, 0, 0, 0, 0, 0x53, 0x54, 0x4D, 0x54, 0,
    1, 0, 17,
];

fn show_fault(rt: &HostRuntime, fault: Fault) -> io::Result<()> {
    println!(rt; "  no {fault}")
}

fn show_put(rt: &HostRuntime, put: Result<(), Fault>) -> io::Result<()> {
    match put {
        Ok(()) => println!(rt; "  ok"),
        Err(fault) => show_fault(rt, fault),
    }
}

// Fills a carrier, and tries one frame more than it has places, and then octets that are no frame.
fn fill<C: Carrier>(rt: &HostRuntime, carrier: &mut C) -> io::Result<()> {
    let places = carrier.places();
    for _ in 0..places {
        let _ = carrier.put(&[0x0A, 0x06, 0x0E, 0x00, 0xC9, 0x00]);
    }
    println!(rt;
        "  {places} places, {} frames, {} places left",
        carrier.count(),
        carrier.places()
    )?;
    show_put(rt, carrier.put(&[1]))?;
    show_put(rt, carrier.put(&[]))?;
    show_put(rt, carrier.put(&[7; 17]))
}

// What a file is read as: the log's size and its first frame, or the refusal.
fn show_log(rt: &HostRuntime, file: &[u8]) -> io::Result<()> {
    match read_log(file) {
        Ok(log) => {
            println!(rt; "  a log of {} octets", log.as_slice().len())?;
            match log.play().next() {
                Some(frame) => println!(rt; "  first >{frame}"),
                None => Ok(()),
            }
        }
        Err(fault) => show_fault(rt, fault),
    }
}

// A log over so many octets, filled, closed and read back.
fn try_octets(rt: &HostRuntime, octets: usize) -> io::Result<()> {
    println!(rt; "log over {octets} octets")?;
    let mut buffer = vec![in rt.alloc(); 0xFFu8; octets]?;
    let mut log = OpenLog::new(buffer.as_mut_slice());
    fill(rt, &mut log)?;
    let closed = log.close();
    show_log(rt, closed.as_slice())
}

// A log of one frame behind other octets, as it is, and with each octet damaged in turn.
fn try_damage(rt: &HostRuntime) -> io::Result<()> {
    println!(rt; "a longer file")?;
    show_log(rt, &LONGER_FILE)?;
    for i in 0..LONGER_FILE.len() {
        let mut file = LONGER_FILE;
        file[i] ^= 0x80;
        println!(rt; "octet {i} damaged")?;
        show_log(rt, &file)?;
    }
    Ok(())
}

// The log of the longer file, written again into so many octets.
fn try_again(rt: &HostRuntime, octets: usize) -> io::Result<()> {
    println!(rt; "written again into {octets} octets")?;
    let mut buffer = vec![in rt.alloc(); 0xFFu8; octets]?;
    match rewrite(&LONGER_FILE, buffer.as_mut_slice()) {
        Ok(log) => show_log(rt, log.as_slice()),
        Err(fault) => show_fault(rt, fault),
    }
}

fn try_bus(rt: &HostRuntime) -> io::Result<()> {
    println!(rt; "bus memory of two places")?;
    let mut places = [Frame::try_from(&[0][..]).unwrap(); 2];
    let mut bus = Counting::new(Bus::new(&mut places));
    fill(rt, &mut bus)?;
    println!(rt; "  {} puts", bus.puts())
}

fn try_all(rt: &HostRuntime) -> io::Result<()> {
    try_bus(rt)?;
    for octets in [0, 7, 8, 24, 25, 41, 42, 65_287, 65_288, 65_305] {
        try_octets(rt, octets)?;
    }
    for octets in [24, 25, 42] {
        try_again(rt, octets)?;
    }
    try_damage(rt)
}

fn main(rt: HostRuntime) -> io::Result<()> {
    // Want of memory for a buffer has no code of the system; an output that has no memory has one.
    try_all(&rt).or_else(|error| match (error.kind(), error.raw_os_error()) {
        (ErrorKind::OutOfMemory, None) => eprintln!(rt; "out of memory"),
        _ => eprintln!(rt; "no output"),
    })
}
