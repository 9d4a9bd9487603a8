// Rows.
use book::view::Want;
use vocabulary::cause::Cause;
use vocabulary::link::Link;
use vocabulary::order::Order;
use vocabulary::state::State;

// An order that has not been answered yet.
#[derive(Clone, Copy, PartialEq, Eq, Debug)]
pub struct OpenOrder {
    pub order: Order,
    // How many ticks old it is; a trip notice to the conditional order begins them anew.
    pub age: u8,
    // Whether a trip notice has come for it.
    pub noted: bool,
}

// What the control keeps of one unit.
#[derive(Clone, Copy, PartialEq, Eq, Debug)]
pub struct Row {
    // The state in which the control takes the unit to be.
    pub held: State,
    // What the unit asked for, if that was allowed and is not used up.
    pub want: Option<Want>,
    pub link: Link,
    // The latest order, while it is unanswered.
    pub open: Option<OpenOrder>,
    // The order before the open one, if it was still open when that was sent.
    pub earlier: Option<Order>,
    // Why the unit failed.
    pub cause: Option<Cause>,
    // The version reply, by its major, if it is due.
    pub reply: Option<u8>,
    // Whether the status is due.
    pub status_due: bool,
    // Whether the Failure order is due.
    pub failure_due: bool,
}
