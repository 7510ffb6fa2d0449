// The flat key: every weight is 1.
ghost use Rattle.std.specs.Prelude.{◌≡◌, ◌≤◌};
ghost use Rattle.spread.specs.Limits.{most_places};
ghost use Rattle.spread.specs.Keys.{flat, flat_fault};
ghost use Rattle.spread.specs.Bounds.{flat-bounded};
ghost use Rattle.spread.specs.Outcome.{MadeUnless};

use crate::fault::SpreadFault;
use crate::key::Key;
use crate::limits::MOST_PLACES;

#[derive(Clone, Copy)]
pub struct Flat {
    count: usize,
    ghost few: { count ≤ most_places },
}

impl Flat {
    pub fn new(count: usize) -> Result<Flat, SpreadFault>
        ensures { MadeUnless (flat_fault count) (λ k. ⟦<Flat as Key>⟧.weights k ≡ flat count) result }
    {
        if count > MOST_PLACES {
            return Err(SpreadFault::NoKey);
        }
        Ok(Flat { count })
    }
}

impl Key for Flat {
    ghost weights = { λ k. flat k.count };

    ghost bounded = { λ k. flat-bounded k.count k.few };

    fn len(&self) -> usize {
        self.count
    }

    fn weight(&self, place: usize) -> u64 {
        u64::from((1..=self.count).contains(&place))
    }
}
