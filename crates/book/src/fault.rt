// Why a book does not take a posting or answer a question.
ghost use Rattle.book.specs.Faults.{told};

use spread::fault::{Layer, Numbered};

#[derive(Clone, Copy, PartialEq, Eq, Debug)]
pub enum BookFault {
    // an account is over 15, or both are the same
    Accounts,
    // the size is over its limit
    OverSize,
    // the book takes no more postings
    NoRoom,
}

impl Numbered for BookFault {
    ghost tells = { told };

    fn number(self) -> u8 {
        match self {
            BookFault::Accounts => 41,
            BookFault::OverSize => 42,
            BookFault::NoRoom => 43,
        }
    }

    fn layer(self) -> Layer {
        Layer::Book
    }
}
