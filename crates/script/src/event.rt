// What a line of a script asks for.
use crate::numbers::Numbers;
use vocabulary::octets::Octets;

// One call on a control, as a script writes it. Numbers are as read, 0 to 65535, and may be out of range.
#[derive(Clone, Copy)]
pub enum Event {
    // A new control over these STMs.
    New(Numbers),
    Connect(u16),
    Lost(u16),
    FinalLoss(u16),
    Message(Octets<255>),
    Status { level: u16, number: u16, mode: u16 },
    Announce(u16),
    TrainData(bool),
    // So many ticks.
    Run(u16),
    PowerOff,
}

// A line that is none of these.
#[derive(Clone, Copy, PartialEq, Eq, Debug)]
pub struct Unreadable;
