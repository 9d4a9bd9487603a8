// The orders to an STM.
ghost use Rattle.std.specs.Prelude.{◌≡◌};
ghost use Rattle.vocabulary.specs.Numbers.{Numbered};
ghost use Rattle.vocabulary.specs.States.{order_number, orders, target_of};

use crate::numbers::UnknownNumber;
use crate::state::State;

// An order to go to a state. The Failure order is none of these: no report answers it.
#[derive(Clone, Copy, PartialEq, Eq, Debug)]
pub enum Order {
    ToConfiguration = 2,
    ToDataEntry = 3,
    ToColdStandby = 4,
    // To Cold Standby once the national system lets the train go (the conditional order).
    ToColdStandbyConditionally = 5,
    ToHotStandby = 6,
    ToDataAvailable = 7,
}

impl Order {
    // The state whose report answers this order.
    pub fn target(self) -> State
        ensures { result ≡ target_of self }
    {
        match self {
            Order::ToConfiguration => State::Configuration,
            Order::ToDataEntry => State::DataEntry,
            Order::ToColdStandby => State::ColdStandby,
            Order::ToColdStandbyConditionally => State::ColdStandby,
            Order::ToHotStandby => State::HotStandby,
            Order::ToDataAvailable => State::DataAvailable,
        }
    }
}

// The number of an order.
impl From<Order> for u8 {
    ghost from_gives = { λ o n. n ≡ order_number o };

    fn from(order: Order) -> u8 {
        order as u8
    }
}

// The order with a number, if there is one.
impl TryFrom<u8> for Order {
    type Error = UnknownNumber;

    ghost try_from_gives = { Numbered order_number orders };

    fn try_from(number: u8) -> Result<Order, UnknownNumber> {
        match number {
            2 => Ok(Order::ToConfiguration),
            3 => Ok(Order::ToDataEntry),
            4 => Ok(Order::ToColdStandby),
            5 => Ok(Order::ToColdStandbyConditionally),
            6 => Ok(Order::ToHotStandby),
            7 => Ok(Order::ToDataAvailable),
            _ => Err(UnknownNumber),
        }
    }
}
