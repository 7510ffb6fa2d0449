// What both books hold: a balance for each account, and the number of postings that are still taken.
ghost use Rattle.std.specs.Prelude.{◌≡◌, false, is_ok};
ghost use Rattle.book.specs.Sheets.{Sound, sheet, fresh, verdict, posted, balance_among};

use crate::fault::BookFault;
use crate::limits::{ACCOUNTS, LAST_ACCOUNT, ROOM_LIMIT};
use crate::posting::Posting;
use spread::units::Money;

// A ghost field and no Model: both books show the fact as a law of theirs.
#[derive(Drop)]
pub(crate) struct Sums {
    pub(crate) balances: [Money; ACCOUNTS],
    // the number of postings that are still taken
    pub(crate) room: usize,
    ghost sound: { Sound (sheet balances room) },
}

impl Sums {
    // A room over the limit counts as the limit.
    pub(crate) fn new(room: usize) -> Sums
        ensures { sheet result.balances result.room ≡ fresh room }
    {
        Sums {
            balances: [Money(0); ACCOUNTS],
            room: room.min(ROOM_LIMIT),
        }
    }

    pub(crate) fn room(&self) -> usize
        ensures { result ≡ self.now.room }
    {
        self.room
    }

    pub(crate) fn balance(&self, account: u8) -> Result<Money, BookFault>
        ensures { result ≡ balance_among self.now.balances account }
    {
        if account > LAST_ACCOUNT {
            return Err(BookFault::Accounts);
        }
        Ok(self.balances[account as usize])
    }

    // Tests the posting and then the room, and moves the size from the debited balance to the credited one.
    pub(crate) fn post(&mut self, posting: Posting) -> Result<(), BookFault>
        ensures answer { result ≡ verdict (sheet self.old.balances self.old.room) posting }
        ensures book { sheet self.new.balances self.new.room
            ≡ posted (sheet self.old.balances self.old.room) posting }
        ensures unchanged { is_ok result ≡ false → self.new ≡ self.old }
    {
        posting.check()?;
        if self.room == 0 {
            return Err(BookFault::NoRoom);
        }
        let size = posting.size.0 as i64;
        self.balances[posting.debit as usize].0 -= size;
        self.balances[posting.credit as usize].0 += size;
        self.room -= 1;
        Ok(())
    }
}
