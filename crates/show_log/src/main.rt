// Shows log files: the frames of each, one to a line, or where it fails to be a log.
#![tactic(auto)]

use log_format::closed::ClosedLog;
use log_reading::read_log;
use std::{env, fs, io};

// A frame to a line.
fn show_frames(rt: &HostRuntime, log: ClosedLog<'_>) -> io::Result<()> {
    for frame in log.play() {
        println!(rt; ">{frame}")?;
    }
    Ok(())
}

// The frames of a log, or the number, place and layer of its refusal.
fn show(rt: &HostRuntime, file: &[u8]) -> io::Result<()> {
    match read_log(file) {
        Ok(log) => show_frames(rt, log),
        Err(fault) => println!(rt; "no {fault}"),
    }
}

fn show_all(rt: &HostRuntime) -> io::Result<()> {
    for path in env::args(rt)?.skip(1) {
        let file = fs::read(rt, path.as_str())?;
        show(rt, file.as_slice())?;
    }
    Ok(())
}

fn main(rt: HostRuntime) -> io::Result<()> {
    show_all(&rt).or_else(|_| eprintln!(rt; "a file cannot be read"))
}
