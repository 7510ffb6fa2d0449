// An estimating key that is not of the rules, with codes of its own: whoever needs another key writes one.
ghost use Rattle.std.specs.Prelude.{cond};
ghost use Rattle.spread.specs.declared.estimating.Code.TheVariants.{Other};

use spread::estimating::{Code, EstimatingKey};
use spread::flat::Flat;
use spread::key::Key;
use spread::units::Metered;

// Each hour has the value 7; the code is 5, and 6 where the energy is known.
#[derive(Clone, Copy)]
pub struct Sevens {
    pub hours: Flat,
}

impl Key for Sevens {
    ghost weights = { λ k. ⟦<Flat as Key>⟧.weights k.hours };

    ghost bounded = { λ k. ⟦<Flat as Key>⟧.bounded k.hours };

    fn len(&self) -> usize {
        self.hours.len()
    }

    fn weight(&self, place: usize) -> u64 {
        self.hours.weight(place)
    }
}

impl EstimatingKey for Sevens {
    ghost value = { λ _ _. 7 };

    ghost code = { λ _ known. cond known (Other 6) (Other 5) };

    fn estimate(&self, place: usize, known: bool) -> (Metered, Code) {
        (Metered(7), Code::Other(if known { 6 } else { 5 }))
    }
}
