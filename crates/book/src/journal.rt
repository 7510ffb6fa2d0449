// The journal: it keeps each posting with its note, in order, in a list that the caller lends.
ghost use Rattle.std.specs.Prelude.{◌≡◌, ◌+◌, min, length};
ghost use Rattle.book.specs.Limits.{room_limit};
ghost use Rattle.book.specs.Sheets.{sheet, fresh};
ghost use Rattle.book.specs.Journals.{Appended, Begun, entry, entries_of};

use crate::fault::BookFault;
use crate::ledger::Book;
use crate::posting::{Entry, Note, Posting};
use crate::sums::Sums;
use spread::units::Money;

#[derive(Drop)]
pub struct Journal<'a> {
    // lent memory, whose places beyond the count are never written: so no Vec
    pub(crate) list: &'a mut [Entry],
    // how many places of the list are written, and so where the next posting goes
    pub(crate) next: usize,
    pub(crate) sums: Sums,
    ghost tied: { next + sums.room ≡ min (length list.now) room_limit },
}

impl<'a> Journal<'a> {
    // The room is the length of the list; of a longer list than the limit, the places beyond are never written.
    pub fn new(list: &'a mut [Entry]) -> Journal<'a>
        ensures book { ⟦<Journal<'a> as Book>⟧.means result ≡ fresh (length list.old) }
        ensures list { Begun list.entry result.list result.next }
    {
        let sums = Sums::new(list.len());
        Journal {
            list,
            next: 0,
            sums,
        }
    }

    // The postings taken, in order.
    pub fn entries(&self) -> &[Entry]
        ensures { result.now ≡ entries_of self.now.list self.now.next }
    {
        &self.list[..self.next]
    }
}

impl<'a> Book for Journal<'a> {
    ghost means = { λ j. sheet j.sums.balances j.sums.room };

    ghost records = { λ j p n k. Appended j.list j.next (entry p n) k.list k.next };

    ghost sound = { λ j. j.sums.sound };

    fn room(&self) -> usize {
        self.sums.room()
    }

    fn balance(&self, account: u8) -> Result<Money, BookFault> {
        self.sums.balance(account)
    }

    fn post(&mut self, posting: Posting, note: Note) -> Result<(), BookFault> {
        // taken apart, since the count is tied to the room and both change
        let Journal { list, next, sums } = self;
        sums.post(posting)?;
        list[*next] = Entry { posting, note };
        *next += 1;
        Ok(())
    }
}
