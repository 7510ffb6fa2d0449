// The numbers of the rules.

// Accounts are numbered from 0 to this one.
pub const LAST_ACCOUNT: u8 = 15;

// The accounts of a book.
pub const ACCOUNTS: usize = 16;

// The most postings that a book takes.
pub const ROOM_LIMIT: usize = 3_000;

// The largest size of a posting, in thousandths of a cent.
pub const SIZE_LIMIT: u64 = 3_000_000_000_000_000;
