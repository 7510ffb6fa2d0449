// The numbers of the rules.

// The most places of a key.
pub const MOST_PLACES: usize = 745;

// The largest weight.
pub const WEIGHT_LIMIT: u64 = 10_000_000_000;

// The longest gap that a line serves.
pub const LINE_LIMIT: usize = 8;

// The most kWh that one meter may read in one hour.
pub const HOUR_LIMIT: u64 = 2_000_000;

// The most that the size of a total times the sum of the weights may be.
pub const PRODUCT_LIMIT: u64 = 9_000_000_000_000_000_000;
