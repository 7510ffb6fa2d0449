// Why a line is not read, or a command has no parts.
ghost use Rattle.std.specs.Prelude.{◌≡◌, alloc_error};
ghost use Rattle.monthfile.specs.declared.stop.Stop.TheVariants.{Fault, NoMemory};
ghost use Rattle.monthfile.specs.Stops.{stop_text};

use crate::fault::LineFault;
use spread::fault::SpreadFault;
use std::alloc::{AllocError, AllocFailed};
use std::error::Error;
use std::fmt;

// What was asked for is at fault, or there is not the memory for it.
#[derive(Clone, Copy, PartialEq, Eq, Debug)]
pub enum Stop<F> {
    Fault(F),
    NoMemory(AllocError),
}

// Written by hand, since contracts name what `?` makes; for each fault, since one over any fault would overlap those for memory.
impl From<LineFault> for Stop<LineFault> {
    ghost from_gives = { λ f s. s ≡ Fault f };

    fn from(fault: LineFault) -> Stop<LineFault> {
        Stop::Fault(fault)
    }
}

impl From<SpreadFault> for Stop<SpreadFault> {
    ghost from_gives = { λ f s. s ≡ Fault f };

    fn from(refusal: SpreadFault) -> Stop<SpreadFault> {
        Stop::Fault(refusal)
    }
}

// The library has two errors for want of memory: one alone, and one that hands a value back.
impl<F> From<AllocError> for Stop<F> {
    ghost from_gives = { λ _ s. s ≡ NoMemory alloc_error };

    fn from(error: AllocError) -> Stop<F> {
        Stop::NoMemory(error)
    }
}

impl<T: Drop, F> From<AllocFailed<T>> for Stop<F> {
    ghost from_gives = { λ _ s. s ≡ NoMemory alloc_error };

    fn from(failed: AllocFailed<T>) -> Stop<F> {
        Stop::NoMemory(failed.into())
    }
}

// It is written as what it holds. What the library writes of want of memory no contract says.
impl<F: fmt::Display> fmt::Display for Stop<F> {
    ghost output = { stop_text F.output };

    fn fmt<W: fmt::Write>(&self, f: &mut fmt::Formatter<W>) -> fmt::Result {
        match self {
            Self::Fault(fault) => fault.fmt(f),
            Self::NoMemory(error) => error.fmt(f),
        }
    }
}

impl<F: Error> Error for Stop<F> {}
