// What a line of a month file asks for, and how it is written.
ghost use Rattle.std.specs.Prelude.{◌≡◌, [], ◌∷◌, IfOk, Some, string_bytes};
ghost use Rattle.std.specs.List.{AllByRecursion};
ghost use Rattle.monthfile.specs.Shown.{weights_text, command_text};
ghost use Rattle.monthfile.specs.Fits.{FitsU64, CommandFits};
ghost use Rattle.monthfile.specs.Lines.{lines_of};
ghost use Rattle.monthfile.specs.Said.{said};
ghost use Rattle.monthfile.specs.Meaning.{asks, line_of};

use spread::units::{Kwh, Metered};
use std::alloc::{AllocError, Global};
use std::fmt;

// The key that a total is spread over, as it is asked for.
#[derive(Drop)]
pub enum Weights {
    // as many places, each with the same weight
    Flat(u64),
    // a weight for each place
    List(Vec<u64>),
    // on the straight line between the readings before and after the gap
    Line {
        gap: u64,
        before: Metered,
        after: Metered,
    },
}

#[derive(Drop)]
pub enum Command {
    Spread { total: Kwh, over: Weights },
}

impl fmt::Display for Weights {
    ghost output = { λ w. Some (weights_text w) };

    fn fmt<W: fmt::Write>(&self, f: &mut fmt::Formatter<W>) -> fmt::Result {
        match self {
            Weights::Flat(count) => write!(f, "flat {count}"),
            Weights::List(weights) => {
                f.write_str("list")?;
                for weight in weights {
                    write!(f, " {weight}")?;
                }
                Ok(())
            }
            Weights::Line { gap, before, after } => write!(f, "line {gap} {before} {after}"),
        }
    }
}

impl fmt::Display for Command {
    ghost output = { λ c. Some (command_text c) };

    fn fmt<W: fmt::Write>(&self, f: &mut fmt::Formatter<W>) -> fmt::Result {
        let Command::Spread { total, over } = self;
        write!(f, "spread {total} {over}")
    }
}

// A number is known to fit its type only where code reads it or takes it in a slice, so these two do that with each number of a command.
fn all_fit(numbers: &[u64])
    ensures { AllByRecursion FitsU64 numbers.now }
{}

fn command_fits(command: &Command)
    ensures { CommandFits command.now }
{
    let Command::Spread { total, over } = command;
    // read, so that it is known to fit
    let _total = total.0;
    match over {
        Weights::Flat(count) => all_fit(&[*count]),
        Weights::List(weights) => all_fit(weights),
        Weights::Line { gap, before, after } => all_fit(&[*gap, before.0, after.0]),
    }
}

// The line that asks for a command: one line, which is read again as that command.
pub fn written(heap: Global, command: &Command) -> Result<String, AllocError>
    ensures text { IfOk result (λ s. string_bytes s ≡ command_text command.now) }
    ensures line { IfOk result (λ s. lines_of (string_bytes s) ≡ string_bytes s ∷ []) }
    ensures reads { IfOk result (λ s. line_of (string_bytes s) ≡ asks (said command.now)) }
{
    command_fits(command);
    format!(in heap; "{command}")
}
