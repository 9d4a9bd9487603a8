// What the standard and the bare book have in common.
ghost use Rattle.std.specs.Prelude.{◌≡◌};
ghost use Rattle.book.specs.Orders.{free, usual_limit};

use vocabulary::order::Order;

// Ten seconds.
const LIMIT: u8 = 100;

// Five seconds.
const LIMIT_TO_DATA_AVAILABLE: u8 = 50;

// Within how many ticks an order has to be answered. Each book that has these limits calls it: as the
// trait's default it is not proved, since there the book's own limit is not known.
pub(crate) fn usual_limit(order: Order) -> u8
    ensures { result ≡ usual_limit order }
{
    match order {
        Order::ToDataAvailable => LIMIT_TO_DATA_AVAILABLE,
        _ => LIMIT,
    }
}

// Whether no open order forbids this one: over an open order only CS may follow DE or the conditional
// order, and DA may follow HS.
pub(crate) fn is_free(before: Option<Order>, order: Order) -> bool
    ensures { result ≡ free before order }
{
    matches!(
        (before, order),
        (None, _)
            | (Some(Order::ToDataEntry), Order::ToColdStandby)
            | (Some(Order::ToHotStandby), Order::ToDataAvailable)
            | (
                Some(Order::ToColdStandbyConditionally),
                Order::ToColdStandby
            )
    )
}
