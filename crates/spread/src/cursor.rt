// A cursor that gives the parts of a total over any key, one place after another.
ghost use Rattle.std.specs.Prelude.{◌≡◌, ◌≤◌, sum, unsigned_abs};
ghost use Rattle.spread.specs.Outcome.{MadeUnless};
ghost use Rattle.spread.specs.Shares.{running, size_fault};
ghost use Rattle.spread.specs.Walks.{Kept, next_part, advanced, walked, Follows};

use crate::fault::SpreadFault;
use crate::key::Key;
use crate::limits::{MOST_PLACES, PRODUCT_LIMIT};
use crate::sign::Sign;
use crate::units::Kwh;
use std::marker::Model;

// The total is held by size and sign: sizes are divided, and the sign is put on each part.
#[derive(Clone, Copy)]
pub struct Cursor {
    size: u64,
    sign: Sign,
    // the sum of all weights
    whole: u64,
    // the sum of the weights passed
    passed: u64,
    // how many places are passed
    place: usize,
}

impl Model for Cursor {
    ghost use Rattle.std.specs.Prelude.{◌*◌, ◌≤◌};
    ghost use Rattle.spread.specs.Limits.{product_limit, most_places};
    ghost use Rattle.spread.specs.Walks.{Walk};

    ghost Value = { Walk };

    ghost view = { λ c. record { size = c.size; sign = c.sign; whole = c.whole; passed = c.passed; place = c.place } };

    ghost invariant = { λ c. (c.size * c.whole ≤ product_limit) × (c.passed ≤ c.whole) × (c.place ≤ most_places) };

    ghost inverse = { λ w. record { size = w.size; sign = w.sign; whole = w.whole; passed = w.passed; place = w.place } };
}

// The sum of the weights of a key.
fn weight_sum<K: Key>(key: &K) -> u64
    ensures { result ≡ sum (K.weights key.now) }
{
    let mut sum = 0;
    for place in 1..=key.len() {
        sum += key.weight(place);
    }
    sum
}

impl Cursor {
    // A cursor before the first place of a key.
    pub fn new<K: Key>(key: &K, total: Kwh) -> Result<Cursor, SpreadFault>
        ensures { MadeUnless (size_fault (unsigned_abs total.0) (sum (K.weights key.now))) (λ c. c ≡ walked total.0 (K.weights key.now) 0) result }
    {
        let size = total.size();
        let whole = weight_sum(key);
        if size != 0 && whole == 0 {
            return Err(SpreadFault::NoWeight);
        }
        if u128::from(size) * u128::from(whole) > u128::from(PRODUCT_LIMIT) {
            return Err(SpreadFault::TooLarge);
        }
        Ok(Cursor {
            size,
            sign: total.sign(),
            whole,
            passed: 0,
            place: 0,
        })
    }

    // The part at the next place, and 0 past the last. A key that is not the one it began with cannot lead it past the whole: that any key may be handed in is why the cursor does not hold one.
    pub fn next_part<K: Key>(&mut self, key: &K) -> Kwh
        ensures part { result.0 ≡ next_part (K.weights key.now) self.old }
        ensures moved { self.new ≡ advanced (K.weights key.now) self.old }
        ensures law { Follows (K.weights key.now) self.old result.0 self.new }
    {
        let weight = key.weight(self.place + 1);
        let onward = self.passed.saturating_add(weight).min(self.whole);
        let low = self.running_share(self.passed);
        let high = self.running_share(onward);
        self.passed = onward;
        self.place = (self.place + 1).min(MOST_PLACES);
        self.sign.put(high - low)
    }

    // How many places are passed, steps past a key's last counted too, 745 at most. Whoever asks knows what holds of every cursor.
    pub fn place(&self) -> usize
        ensures place { result ≡ self.now.place }
        ensures kept { Kept self.now }
    {
        // read, so that they are known to fit
        let _size = self.size;
        let _whole = self.whole;
        self.place
    }

    // The running share of the size at a prefix of the whole, the fraction dropped.
    #[tactic(auto, unfolding(crate::specs::Shares::running))]
    fn running_share(&self, prefix: u64) -> u64
        requires { prefix ≤ self.now.whole }
        ensures { result ≡ running self.now.size self.now.whole prefix }
    {
        if self.whole == 0 {
            0
        } else {
            self.size * prefix / self.whole
        }
    }
}
