// Units, keys, and the spread of a signed total over a key.
#![tactic(auto)]

pub mod cursor;
pub mod estimating;
pub mod fault;
pub mod figures;
pub mod flat;
pub mod key;
pub mod last_week;
pub mod limits;
pub mod line;
pub mod numbers;
pub mod sign;
pub mod spreading;
pub mod units;
