// Keys that also estimate: they give a value and a code for each place.
ghost use Rattle.std.specs.Prelude.{◌≡◌, ℕ, Bool};
ghost use Rattle.spread.specs.Units.{metered};
ghost use Rattle.spread.specs.Keys.{line};
ghost use Rattle.spread.specs.declared.estimating.Code.{Code};
ghost use Rattle.spread.specs.Estimates.{line_value, week_value, line_code, week_code, code_number};

use crate::key::Key;
use crate::last_week::LastWeek;
use crate::line::Line;
use crate::units::Metered;

// The key that an estimate is made with, and whether the energy of its gap is known.
#[derive(Clone, Copy, PartialEq, Eq, Debug)]
pub enum Code {
    Line,
    LastWeek,
    LineKnown,
    LastWeekKnown,
    // the number of a code that another crate's key has
    Other(u8),
}

impl From<Code> for u8 {
    ghost from_gives = { λ c n. n ≡ code_number c };

    fn from(code: Code) -> u8 {
        match code {
            Code::Line => 1,
            Code::LastWeek => 2,
            Code::LineKnown => 3,
            Code::LastWeekKnown => 4,
            Code::Other(number) => number,
        }
    }
}

// The value goes by the place, the code by whether the energy of the gap is known.
pub trait EstimatingKey: Key {
    ghost value: { Self → ℕ → ℕ };

    ghost code: { Self → Bool → Code };

    fn estimate(&self, place: usize, known: bool) -> (Metered, Code)
        ensures { result ≡ (metered (value self.now place), code self.now known) };
}

impl EstimatingKey for Line {
    ghost value = { λ k place. line_value (line k.gap k.before.0 k.after.0) place };

    ghost code = { λ _ known. line_code known };

    fn estimate(&self, place: usize, known: bool) -> (Metered, Code) {
        let value = self.weight(place) / (self.len() as u64 + 1);
        (
            Metered(value),
            if known { Code::LineKnown } else { Code::Line },
        )
    }
}

impl EstimatingKey for LastWeek<'_> {
    ghost value = { λ k place. week_value k.numbers.list.now place };

    ghost code = { λ _ known. week_code known };

    fn estimate(&self, place: usize, known: bool) -> (Metered, Code) {
        (
            Metered(self.weight(place)),
            if known {
                Code::LastWeekKnown
            } else {
                Code::LastWeek
            },
        )
    }
}
