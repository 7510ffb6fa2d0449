// Cases of the whole product: figures, edges, and each refusal.
#![tactic(auto)]

#[cfg(test)]
mod books;
#[cfg(test)]
mod keys;
#[cfg(test)]
mod lent;
#[cfg(test)]
mod month_files;
#[cfg(test)]
mod other_key;
#[cfg(test)]
mod refused;
#[cfg(test)]
mod spreads;
#[cfg(test)]
mod units;
