// What a lender finds in his list once the journal has ended.
ghost use Rattle.std.specs.Prelude.{◌≡◌, true, false, ◌⊎◌, is_ok, slice_set};
ghost use Rattle.book.specs.Journals.{entry};

use book::fault::BookFault;
use book::journal::Journal;
use book::ledger::Book;
use book::posting::{BLANK_ENTRY, Entry, NO_NOTE, Note, Posting};
use spread::units::Amount;
use std::test::Fail;

// Code that knows only that it has a book.
fn post_once<B: Book>(book: &mut B, posting: Posting, note: Note) -> Result<(), BookFault>
    ensures records { is_ok result ≡ true → B.Book.records book.old posting note book.new }
    ensures unchanged { is_ok result ≡ false → book.new ≡ book.old }
{
    book.post(posting, note)
}

// The first place of the list holds the posting with its note, and every other is as it was.
fn kept_once(list: &mut [Entry], posting: Posting, note: Note) -> Result<(), BookFault>
    ensures taken { is_ok result ≡ true → list.new ≡ slice_set list.old 0 (entry posting note) }
    ensures denied { is_ok result ≡ false → list.new ≡ list.old }
{
    let mut book = Journal::new(list);
    post_once(&mut book, posting, note)
}

// Two in their order; where the second is denied, the first is there.
fn kept_twice(list: &mut [Entry], one: Posting, two: Posting, note: Note) -> Result<(), BookFault>
    ensures taken { is_ok result ≡ true → list.new ≡ slice_set (slice_set list.old 0 (entry one note)) 1 (entry two note) }
    ensures denied { is_ok result ≡ false → (list.new ≡ list.old) ⊎ (list.new ≡ slice_set list.old 0 (entry one note)) }
{
    let mut book = Journal::new(list);
    post_once(&mut book, one, note)?;
    post_once(&mut book, two, note)
}

#[test]
fn lists_after_the_book(rt: HostRuntime) -> Result<(), Fail> {
    let one = Posting {
        debit: 1,
        credit: 2,
        size: Amount(3),
    };
    let kept = Entry {
        posting: one,
        note: NO_NOTE,
    };
    let mut list = [BLANK_ENTRY; 2];
    kept_once(&mut list, one, NO_NOTE)?;
    assert_eq!(rt; list, [kept, BLANK_ENTRY]);
    kept_twice(&mut list, one, one, NO_NOTE)?;
    assert_eq!(rt; list, [kept, kept]);
    Ok(())
}
