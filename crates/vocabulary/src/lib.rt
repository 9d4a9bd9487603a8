// The vocabulary of the STM control function: its states, orders, causes, links, levels, modes,
// refusals and settings as types. Each number has one definition in specs/.
#![tactic(auto)]

pub mod cause;
pub mod fault;
pub mod level;
pub mod link;
pub mod mode;
pub mod numbers;
pub mod octets;
pub mod order;
pub mod settings;
pub mod state;
pub mod trip;
pub mod versions;
