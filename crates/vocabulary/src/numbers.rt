// What is answered to a number that names nothing.

// A number that no case has. Each enum has its own table from numbers to cases: one search through all cases
// would say each number only once, but it is no plainer than the `match` that Rust has for this.
#[derive(Clone, Copy, PartialEq, Eq, Debug)]
pub struct UnknownNumber;
