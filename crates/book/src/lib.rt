// What a book means, two books that are proved to mean it, and code that serves every book.
#![tactic(auto)]

pub mod balances;
pub mod fault;
pub mod journal;
pub mod ledger;
pub mod limits;
pub mod posting;
pub mod reversal;
pub mod shown;
mod sums;
pub mod totals;
