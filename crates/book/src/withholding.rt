// A book that withholds one order of another book.
ghost use Rattle.std.specs.Prelude.{◌≡◌};
ghost use Rattle.book.specs.Withheld.{without, wrapped};
ghost use Rattle.book.specs.LawfulWithholding.{withholding_lawful};

use crate::Book;
use crate::view::View;
use vocabulary::fault::{Fault, Layer, Refusal};
use vocabulary::order::Order;

// Any book, but with none in place of one order. Its limits are those of the inner book.
#[derive(Drop)]
pub struct Withholding<B> {
    inner: B,
    order: Order,
}

// A book that could not be wrapped, and why: it comes back to whoever handed it over.
#[derive(Drop)]
pub struct NotWrapped<B> {
    pub inner: B,
    pub fault: Fault,
}

impl<B> Withholding<B> {
    // This book without the order that has this number: a number, since one that no order has is refused by 9.
    // Either answer takes the inner book, which no pair of closures could share.
    pub fn new(inner: B, number: u8) -> Result<Withholding<B>, NotWrapped<B>>
        ensures { result ≡ wrapped inner number }
    {
        match Order::try_from(number) {
            Ok(order) => Ok(Withholding { inner, order }),
            Err(_) => Err(NotWrapped {
                inner,
                fault: Fault::new(Refusal::Range, 0, Layer::Control),
            }),
        }
    }
}

impl<B: Book> Book for Withholding<B> {
    ghost answer = { λ w v. without w.order (B.Book.answer w.inner v) };

    ghost limit = { λ w o. B.Book.limit w.inner o };

    ghost lawful = { withholding_lawful B.Book.answer B.Book.limit B.Book.lawful };

    fn consult(&self, view: View) -> Option<Order> {
        self.inner
            .consult(view)
            .filter(|given| *given != self.order)
    }

    fn limit(&self, order: Order) -> u8 {
        self.inner.limit(order)
    }
}
