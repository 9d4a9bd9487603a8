// What a control is: the types that it keeps, and, in specs/, what each call makes of them.
#![tactic(auto)]

pub mod cases;
pub mod counts;
pub mod row;
pub mod surroundings;
