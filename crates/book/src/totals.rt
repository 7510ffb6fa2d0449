// The totals book: 16 sums and a count.
ghost use Rattle.std.specs.Prelude.{◌≡◌};
ghost use Rattle.book.specs.Sheets.{sheet, fresh};

use crate::fault::BookFault;
use crate::ledger::Book;
use crate::posting::{Note, Posting};
use crate::sums::Sums;
use spread::units::Money;

#[derive(Drop)]
pub struct Totals {
    pub(crate) sums: Sums,
}

impl Totals {
    // A room over the limit counts as the limit.
    pub fn new(room: usize) -> Totals
        ensures book { ⟦<Totals as Book>⟧.means result ≡ fresh room }
    {
        Totals {
            sums: Sums::new(room),
        }
    }
}

impl Book for Totals {
    ghost means = { λ t. sheet t.sums.balances t.sums.room };

    ghost records = { λ _ _ _ _. Unit {0} };

    ghost sound = { λ t. t.sums.sound };

    // told by the sums, as a journal's are: two calls passed on
    fn room(&self) -> usize {
        self.sums.room()
    }

    fn balance(&self, account: u8) -> Result<Money, BookFault> {
        self.sums.balance(account)
    }

    fn post(&mut self, posting: Posting, note: Note) -> Result<(), BookFault> {
        self.sums.post(posting)
    }
}
