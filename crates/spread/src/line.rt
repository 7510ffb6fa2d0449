// The line between the reading before a gap and the reading after it.
ghost use Rattle.std.specs.Prelude.{◌≡◌, ◌≤◌};
ghost use Rattle.spread.specs.Limits.{line_limit, hour_limit};
ghost use Rattle.spread.specs.Keys.{line, line_fault};
ghost use Rattle.spread.specs.Bounds.{line-bounded};
ghost use Rattle.spread.specs.Outcome.{MadeUnless};

use crate::fault::SpreadFault;
use crate::key::Key;
use crate::limits::{HOUR_LIMIT, LINE_LIMIT};
use crate::units::Metered;

#[derive(Clone, Copy)]
pub struct Line {
    gap: usize,
    before: Metered,
    after: Metered,
    ghost short: { gap ≤ line_limit },
    ghost low: { before.0 ≤ hour_limit },
    ghost high: { after.0 ≤ hour_limit },
}

impl Line {
    pub fn new(gap: usize, before: Metered, after: Metered) -> Result<Line, SpreadFault>
        ensures { MadeUnless (line_fault gap before.0 after.0) (λ k. ⟦<Line as Key>⟧.weights k ≡ line gap before.0 after.0) result }
    {
        if gap > LINE_LIMIT || before.0 > HOUR_LIMIT || after.0 > HOUR_LIMIT {
            return Err(SpreadFault::NoKey);
        }
        Ok(Line { gap, before, after })
    }
}

impl Key for Line {
    ghost weights = { λ k. line k.gap k.before.0 k.after.0 };

    ghost bounded = { λ k. line-bounded k.gap k.before.0 k.after.0 k.short k.low k.high };

    fn len(&self) -> usize {
        self.gap
    }

    fn weight(&self, place: usize) -> u64 {
        if place == 0 || place > self.gap {
            return 0;
        }
        self.before.0 * (self.gap + 1 - place) as u64 + self.after.0 * place as u64
    }
}
