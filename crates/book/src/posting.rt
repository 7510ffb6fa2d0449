// Postings, the notes that come with them, and how a journal keeps both.
ghost use Rattle.std.specs.Prelude.{◌≡◌};
ghost use Rattle.spread.specs.Outcome.{answer_of};
ghost use Rattle.book.specs.Postings.{posting_fault, reversed, note_back};

use crate::fault::BookFault;
use crate::limits::{LAST_ACCOUNT, SIZE_LIMIT};
use spread::units::{Amount, Kwh};

// A movement of money from the debited account to the credited one.
#[derive(Clone, Copy, PartialEq, Eq, Debug)]
pub struct Posting {
    pub debit: u8,
    pub credit: u8,
    pub size: Amount,
}

// What a posting is for: a meter, the hours corrected, the sums of their bases before and after. No balance and no denial depends on it.
#[derive(Clone, Copy, PartialEq, Eq, Debug)]
pub struct Note {
    pub meter: usize,
    pub first: usize,
    pub last: usize,
    pub before: Kwh,
    pub after: Kwh,
}

// A posting with its note, as a journal keeps it.
#[derive(Clone, Copy, PartialEq, Eq, Debug)]
pub struct Entry {
    pub posting: Posting,
    pub note: Note,
}

// A note that says nothing.
pub const NO_NOTE: Note = Note {
    meter: 0,
    first: 0,
    last: 0,
    before: Kwh(0),
    after: Kwh(0),
};

// An entry of zeros, to make a list of.
pub const BLANK_ENTRY: Entry = Entry {
    posting: Posting {
        debit: 0,
        credit: 0,
        size: Amount(0),
    },
    note: NO_NOTE,
};

impl Posting {
    // Tests the accounts and then the size: what no book takes, whatever it holds.
    pub fn check(self) -> Result<(), BookFault>
        ensures { result ≡ answer_of (posting_fault self) }
    {
        if self.debit > LAST_ACCOUNT || self.credit > LAST_ACCOUNT || self.debit == self.credit {
            return Err(BookFault::Accounts);
        }
        if self.size.0 > SIZE_LIMIT {
            return Err(BookFault::OverSize);
        }
        Ok(())
    }

    // The posting that takes this one back.
    pub fn reversed(self) -> Posting
        ensures { result ≡ reversed self }
    {
        Posting {
            debit: self.credit,
            credit: self.debit,
            ..self
        }
    }
}

impl Note {
    // The note for the posting that takes back the one that this note came with.
    pub fn reversed(self) -> Note
        ensures { result ≡ note_back self }
    {
        Note {
            before: self.after,
            after: self.before,
            ..self
        }
    }
}
