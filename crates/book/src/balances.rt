// All balances of a book, for every book.
ghost use Rattle.std.specs.Prelude.{◌≡◌};

use crate::ledger::Book;
use crate::limits::ACCOUNTS;
use spread::units::Money;
use std::array;

// The balances in the order of the accounts.
pub fn balances<B: Book>(book: &B) -> [Money; ACCOUNTS]
    ensures { result ≡ (B.means book.now).balances }
{
    // no account of a book is refused
    array::from_fn(|account| book.balance(account as u8).unwrap_or(Money(0)))
}
