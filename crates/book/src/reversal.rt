// A posting and its reverse, for every book.
ghost use Rattle.std.specs.Prelude.{◌≡◌};
ghost use Rattle.book.specs.Reversals.{reversal, sheet_after, Restores, Leaves};

use crate::fault::BookFault;
use crate::ledger::Book;
use crate::posting::{Note, Posting};

// How a posting and then its reverse went. No Result: by the rules a refusal alters nothing, and a posting that stands has altered the book.
#[derive(Clone, Copy, PartialEq, Eq, Debug)]
pub enum Reversal {
    // both were taken
    Reversed,
    // the posting was taken and stands, since its reverse was denied
    Standing(BookFault),
    // the posting was denied
    Denied(BookFault),
}

// Posts, and then posts the reverse: where both are taken every balance is as it was.
pub fn post_and_reverse<B: Book>(book: &mut B, posting: Posting, note: Note) -> Reversal
    ensures answer { result ≡ reversal (B.means book.old) posting }
    ensures book { B.means book.new ≡ sheet_after result (B.means book.old) posting }
    ensures law { Restores result (B.means book.old) (B.means book.new) }
    ensures records { Leaves B.records result book.old posting note book.new }
{
    if let Err(fault) = book.post(posting, note) {
        return Reversal::Denied(fault);
    }
    match book.post(posting.reversed(), note.reversed()) {
        Ok(()) => Reversal::Reversed,
        Err(fault) => Reversal::Standing(fault),
    }
}
