// Books of conditions: which order an STM is to get, and within how many ticks it has to answer.
// The control is written over any book that keeps the laws; the standard book orders exactly when a
// condition of SUBSET-035 calls for it.
#![tactic(auto)]

ghost use Rattle.std.specs.Prelude.{◌≡◌, ℕ, Option};
ghost use Rattle.vocabulary.specs.declared.order.Order.{Order};
ghost use Rattle.book.specs.declared.view.View.{View};
ghost use Rattle.book.specs.Laws.{Laws};

use view::View;
use vocabulary::order::Order;

pub mod bare;
pub mod condition;
pub mod standard;
mod usual;
pub mod view;
pub mod withholding;

// A book answers none or an order to each view, and has a limit for each order, in ticks of a tenth
// of a second. Both are functions of the book: consulting it alters nothing, and the same view
// always has the same answer.
pub trait Book {
    ghost answer: { Self → View → Option Order };

    ghost limit: { Self → Order → ℕ };

    // The order that this view calls for, if any.
    fn consult(&self, view: View) -> Option<Order>
        ensures { result ≡ answer self.now view };

    // Within how many ticks this order has to be answered.
    fn limit(&self, order: Order) -> u8
        ensures { result ≡ limit self.now order };

    ghost lawful: { Laws answer limit };
}
