// How an entry of a journal is written.
ghost use Rattle.std.specs.Prelude.{Some};
ghost use Rattle.book.specs.Shown.{posting_text, note_text, entry_text};

use crate::posting::{Entry, Note, Posting};
use std::fmt;

impl fmt::Display for Posting {
    ghost output = { λ p. Some (posting_text p) };

    fn fmt<W: fmt::Write>(&self, f: &mut fmt::Formatter<W>) -> fmt::Result {
        write!(
            f,
            "debit {} credit {} size {}",
            self.debit, self.credit, self.size
        )
    }
}

impl fmt::Display for Note {
    ghost output = { λ n. Some (note_text n) };

    fn fmt<W: fmt::Write>(&self, f: &mut fmt::Formatter<W>) -> fmt::Result {
        write!(
            f,
            "meter {} hours {}-{} before {} after {}",
            self.meter, self.first, self.last, self.before, self.after
        )
    }
}

impl fmt::Display for Entry {
    ghost output = { λ e. Some (entry_text e) };

    fn fmt<W: fmt::Write>(&self, f: &mut fmt::Formatter<W>) -> fmt::Result {
        write!(f, "{} {}", self.posting, self.note)
    }
}
