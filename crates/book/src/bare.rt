// The bare book: a unit is configured, put to CS, and goes from there to DA and back.
ghost use Rattle.std.specs.Prelude.{◌≡◌};
ghost use Rattle.book.specs.Bare.{bare_rule, bare_answer};
ghost use Rattle.book.specs.Orders.{usual_limit};
ghost use Rattle.book.specs.LawfulBare.{bare_lawful};

use crate::Book;
use crate::standard::is_in_force;
use crate::usual::{is_free, usual_limit};
use crate::view::{LevelSeen, View, Want};
use vocabulary::mode::Mode;
use vocabulary::order::Order;
use vocabulary::state::State;

// The book of campaigns without data entry, Hot Standby and conditional orders.
#[derive(Clone, Copy, Debug)]
pub struct Bare;

// The rule of the held state.
fn bare_rule(view: View) -> Option<Order>
    ensures { result ≡ bare_rule view.held view }
{
    match view.held {
        State::PowerOn if view.want == Some(Want::Configuration) => Some(Order::ToConfiguration),
        State::Configuration | State::DataEntry if view.want == Some(Want::ColdStandby) => Some(
            Order::ToColdStandby,
        ),
        State::ColdStandby if is_in_force(view) => Some(Order::ToDataAvailable),
        State::DataAvailable if view.mode == Mode::Trip || view.level != LevelSeen::Own => Some(
            Order::ToColdStandby,
        ),
        _ => None,
    }
}

impl Book for Bare {
    ghost answer = { λ _ v. bare_answer v };

    ghost limit = { λ _ o. usual_limit o };

    ghost lawful = { bare_lawful };

    fn consult(&self, view: View) -> Option<Order> {
        bare_rule(view).filter(|order| is_free(view.open, *order))
    }

    fn limit(&self, order: Order) -> u8 {
        usual_limit(order)
    }
}
