// Books: rooms, sizes, accounts, and what a journal keeps.
use crate::refused::refusal;
use book::balances::balances;
use book::fault::BookFault;
use book::journal::Journal;
use book::ledger::Book;
use book::posting::{BLANK_ENTRY, Entry, NO_NOTE, Note, Posting};
use book::reversal::{Reversal, post_and_reverse};
use book::totals::Totals;
use spread::fault::{Layer, Numbered};
use spread::units::{Amount, Kwh, Money};
use std::process::Abort;
use std::test::Fail;

const LIMIT: u64 = 3_000_000_000_000_000;

fn posting(debit: u8, credit: u8, size: u64) -> Posting {
    Posting {
        debit,
        credit,
        size: Amount(size),
    }
}

// The number of a refusal, and 0 where a posting is taken.
fn posted<B: Book>(book: &mut B, debit: u8, credit: u8, size: u64) -> u8 {
    refusal(book.post(posting(debit, credit, size), NO_NOTE))
}

#[test]
fn one_posting_then_full(rt: HostRuntime) -> Result<(), Fail> {
    let mut book = Totals::new(1);
    assert_eq!(rt; book.room(), 1);
    assert_eq!(rt; posted(&mut book, 1, 2, 601_000), 0);
    assert_eq!(rt; book.room(), 0);
    assert_eq!(rt; posted(&mut book, 2, 1, 601_000), 43);
    assert_eq!(rt; book.balance(1)?, Money(-601_000));
    assert_eq!(rt; book.balance(2)?, Money(601_000));
    assert_eq!(rt; book.balance(3)?, Money(0));
    Ok(())
}

#[test]
fn refused_in_order(rt: HostRuntime) {
    let mut book = Totals::new(0);
    assert_eq!(rt; book.room(), 0);
    assert_eq!(rt; posted(&mut book, 16, 1, u64::MAX), 41);
    assert_eq!(rt; posted(&mut book, 1, 255, LIMIT), 41);
    assert_eq!(rt; posted(&mut book, 3, 3, 0), 41);
    assert_eq!(rt; posted(&mut book, 0, 15, LIMIT + 1), 42);
    assert_eq!(rt; posted(&mut book, 0, 15, u64::MAX), 42);
    assert_eq!(rt; posted(&mut book, 0, 15, LIMIT), 43);
    assert_eq!(rt; posted(&mut book, 0, 15, 0), 43);
    assert_eq!(rt; balances(&book), [Money(0); 16]);
}

#[test]
fn rooms(rt: HostRuntime) {
    assert_eq!(rt; Totals::new(2_999).room(), 2_999);
    assert_eq!(rt; Totals::new(3_000).room(), 3_000);
    assert_eq!(rt; Totals::new(3_001).room(), 3_000);
    assert_eq!(rt; Totals::new(usize::MAX).room(), 3_000);
    assert_eq!(rt; Journal::new(&mut []).room(), 0);
    assert_eq!(rt; Journal::new(&mut [BLANK_ENTRY; 2]).room(), 2);
}

#[test]
fn sizes_and_accounts(rt: HostRuntime) -> Result<(), Fail> {
    let mut book = Totals::new(3);
    assert_eq!(rt; posted(&mut book, 0, 15, LIMIT), 0);
    assert_eq!(rt; posted(&mut book, 0, 15, LIMIT + 1), 42);
    assert_eq!(rt; posted(&mut book, 15, 14, 0), 0);
    assert_eq!(rt; book.room(), 1);
    assert_eq!(rt; book.balance(0)?, Money(-3_000_000_000_000_000));
    assert_eq!(rt; book.balance(14)?, Money(0));
    assert_eq!(rt; book.balance(15)?, Money(3_000_000_000_000_000));
    assert_eq!(rt; book.balance(16), Err(BookFault::Accounts));
    assert_eq!(rt; book.balance(255), Err(BookFault::Accounts));
    Ok(())
}

// All that a book takes, in one direction.
fn filled<B: Book>(rt: &impl Abort, book: &mut B) -> Result<(), Fail> {
    assert_eq!(rt; book.room(), 3_000);
    for _ in 0..3_000 {
        assert_eq!(rt; posted(book, 2, 3, LIMIT), 0);
    }
    assert_eq!(rt; book.room(), 0);
    assert_eq!(rt; posted(book, 3, 2, LIMIT), 43);
    assert_eq!(rt; book.balance(2)?, Money(-9_000_000_000_000_000_000));
    assert_eq!(rt; book.balance(3)?, Money(9_000_000_000_000_000_000));
    Ok(())
}

#[test]
fn totals_filled(rt: HostRuntime) -> Result<(), Fail> {
    filled(&rt, &mut Totals::new(3_000))
}

#[test]
fn journal_filled(rt: HostRuntime) -> Result<(), Fail> {
    let last = Entry {
        posting: posting(7, 8, 9),
        note: NO_NOTE,
    };
    let mut list = vec![in rt.alloc(); last; 3_001]?;
    let mut book = Journal::new(&mut list);
    filled(&rt, &mut book)?;
    assert_eq!(rt; book.entries().len(), 3_000);
    assert!(rt; list.len() == 3_001);
    assert_eq!(rt; list[0].posting.size.0, LIMIT);
    assert_eq!(rt; list[2_999].posting.size.0, LIMIT);
    assert_eq!(rt; list[3_000], last);
    Ok(())
}

#[test]
fn journal_in_order(rt: HostRuntime) {
    let note = Note {
        meter: 63,
        first: 0,
        last: 744,
        before: Kwh(-600),
        after: Kwh(-500),
    };
    let one = Entry {
        posting: posting(1, 2, 601_000),
        note,
    };
    let two = Entry {
        posting: posting(2, 1, 601_000),
        note: note.reversed(),
    };
    let mut list = [BLANK_ENTRY; 4];
    let mut book = Journal::new(&mut list);
    assert_eq!(rt;
        post_and_reverse(&mut book, one.posting, note),
        Reversal::Reversed
    );
    assert_eq!(rt; book.entries(), [one, two].as_slice());
    assert_eq!(rt; book.post(posting(5, 5, 1), note), Err(BookFault::Accounts));
    assert_eq!(rt; book.room(), 2);
    assert_eq!(rt; balances(&book), [Money(0); 16]);
    assert_eq!(rt; list, [one, two, BLANK_ENTRY, BLANK_ENTRY]);
}

#[test]
fn reversals(rt: HostRuntime) -> Result<(), Fail> {
    let (p, n) = (posting(4, 5, 70), NO_NOTE);
    let mut two = Totals::new(2);
    assert_eq!(rt; post_and_reverse(&mut two, p, n), Reversal::Reversed);
    assert_eq!(rt; two.room(), 0);
    assert_eq!(rt; two.balance(4)?, Money(0));
    let mut one = Totals::new(1);
    assert_eq!(rt;
        post_and_reverse(&mut one, p, n),
        Reversal::Standing(BookFault::NoRoom)
    );
    assert_eq!(rt; one.balance(4)?, Money(-70));
    let mut none = Totals::new(0);
    assert_eq!(rt;
        post_and_reverse(&mut none, p, n),
        Reversal::Denied(BookFault::NoRoom)
    );
    assert_eq!(rt;
        post_and_reverse(&mut two, posting(16, 5, 0), n),
        Reversal::Denied(BookFault::Accounts)
    );
    Ok(())
}

#[test]
fn faults(rt: HostRuntime) {
    assert_eq!(rt; BookFault::Accounts.number(), 41);
    assert_eq!(rt; BookFault::OverSize.number(), 42);
    assert_eq!(rt; BookFault::NoRoom.number(), 43);
    assert_eq!(rt; BookFault::NoRoom.layer(), Layer::Book);
}

#[test]
fn entries_as_text(rt: HostRuntime) -> Result<(), Fail> {
    let entry = Entry {
        posting: posting(0, 15, LIMIT),
        note: Note {
            meter: 63,
            first: 1,
            last: 744,
            before: Kwh(i64::MIN),
            after: Kwh(0),
        },
    };
    assert_eq!(rt;
        format!(in rt.alloc(); "{entry}")?.as_str(),
        "debit 0 credit 15 size 3000000000000000 meter 63 hours 1-744 before -9223372036854775808 after 0"
    );
    Ok(())
}
