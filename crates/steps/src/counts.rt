// The five counts of a call.

// Orders that the carrier took in a call, and orders that were closed in it, by what closed them. The
// Failure order is in none of them.
#[derive(Clone, Copy, PartialEq, Eq, Debug)]
pub struct Counts {
    pub taken: u32,
    // Closed by a report of their target.
    pub answered: u32,
    // Closed by the next order to the same unit.
    pub followed: u32,
    // Closed by a failure of their unit.
    pub failed: u32,
    // Closed by power-off.
    pub voided: u32,
}
