// The numbers of last week, as weights and as values.
ghost use Rattle.std.specs.Prelude.{◌≡◌, IfOk};
ghost use Rattle.spread.specs.Keys.{clipped, list_fault};
ghost use Rattle.spread.specs.Outcome.{MadeUnless};

use crate::fault::SpreadFault;
use crate::key::Key;
use crate::numbers::Numbers;

// A list of numbers as such estimates nothing, so this is a type of its own; a parameter of `Numbers` that marks it would be no plainer than two forwarded calls.
#[derive(Clone, Copy)]
pub struct LastWeek<'a> {
    numbers: Numbers<'a>,
}

impl<'a> LastWeek<'a> {
    pub fn new(list: &'a [u64]) -> Result<LastWeek<'a>, SpreadFault>
        ensures made { MadeUnless (list_fault list.now) (λ k. ⟦<LastWeek<'a> as Key>⟧.weights k ≡ list.now) result }
        ensures clipped { IfOk result (λ k. ⟦<LastWeek<'a> as Key>⟧.weights k ≡ clipped list.now) }
    {
        let numbers = Numbers::new(list)?;
        Ok(LastWeek { numbers })
    }
}

impl Key for LastWeek<'_> {
    ghost weights = { λ k. k.numbers.list.now };

    ghost bounded = { λ k. k.numbers.bounded };

    fn len(&self) -> usize {
        self.numbers.len()
    }

    fn weight(&self, place: usize) -> u64 {
        self.numbers.weight(place)
    }
}
