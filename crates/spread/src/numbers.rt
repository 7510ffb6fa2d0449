// A list of numbers as a key, over a slice that the caller lends.
ghost use Rattle.std.specs.Prelude.{◌≡◌, IfOk};
ghost use Rattle.spread.specs.Keys.{Bounded, clipped, list_fault};
ghost use Rattle.spread.specs.Outcome.{MadeUnless};

use crate::fault::SpreadFault;
use crate::key::Key;
use crate::limits::{MOST_PLACES, WEIGHT_LIMIT};

#[derive(Clone, Copy)]
pub struct Numbers<'a> {
    list: &'a [u64],
    ghost bounded: { Bounded list.now },
}

impl<'a> Numbers<'a> {
    // Of a list that is made a key nothing is clipped.
    pub fn new(list: &'a [u64]) -> Result<Numbers<'a>, SpreadFault>
        ensures made { MadeUnless (list_fault list.now) (λ k. ⟦<Numbers<'a> as Key>⟧.weights k ≡ list.now) result }
        ensures clipped { IfOk result (λ k. ⟦<Numbers<'a> as Key>⟧.weights k ≡ clipped list.now) }
    {
        if list.len() > MOST_PLACES {
            return Err(SpreadFault::NoKey);
        }
        // a for over the elements, by the rules of the product
        for weight in list {
            if *weight > WEIGHT_LIMIT {
                return Err(SpreadFault::NoKey);
            }
        }
        Ok(Numbers { list })
    }
}

impl Key for Numbers<'_> {
    ghost weights = { λ k. k.list.now };

    ghost bounded = { λ k. k.bounded };

    fn len(&self) -> usize {
        self.list.len()
    }

    fn weight(&self, place: usize) -> u64 {
        place
            .checked_sub(1)
            .and_then(|i| self.list.get(i))
            .copied()
            .unwrap_or(0)
    }
}
