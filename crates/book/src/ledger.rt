// What a book is.
ghost use Rattle.std.specs.Prelude.{◌≡◌, true, false, is_ok};
ghost use Rattle.book.specs.declared.posting.Posting.{Posting};
ghost use Rattle.book.specs.declared.posting.Note.{Note};
ghost use Rattle.book.specs.Sheets.{Sheet, Sound, verdict, posted, balance_told};

use crate::fault::BookFault;
use crate::posting::{Note, Posting};
use spread::units::Money;

// 16 balances, and a room: the number of postings that it still takes. A question alters nothing.
pub trait Book {
    // What the book means.
    ghost means: { Self → Sheet };

    // What else a posting that is taken leaves: how the book before it and the book after it hang together.
    ghost records: { Self → Posting → Note → Self → Type 0 };

    // What each book shows of itself, and what code over any book may use.
    ghost sound: { (b : Self) → Sound (means b) };

    fn room(&self) -> usize
        ensures { result ≡ (means self.now).room };

    fn balance(&self, account: u8) -> Result<Money, BookFault>
        ensures { result ≡ balance_told (means self.now) account };

    // Takes a posting with its note, or denies it and stays as it was. The note comes beside the posting, since by the rules no answer depends on it.
    fn post(&mut self, posting: Posting, note: Note) -> Result<(), BookFault>
        ensures answer { result ≡ verdict (means self.old) posting }
        ensures book { means self.new ≡ posted (means self.old) posting }
        ensures records { is_ok result ≡ true → records self.old posting note self.new }
        ensures unchanged { is_ok result ≡ false → self.new ≡ self.old };
}
