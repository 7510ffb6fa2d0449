// Why a line of a month file is no command.
ghost use Rattle.std.specs.Prelude.{◌≡◌, Some};
ghost use Rattle.monthfile.specs.Faults.{fault_text};

use std::error::Error;
use std::fmt;

#[derive(Clone, Copy, PartialEq, Eq, Debug)]
pub enum LineFault {
    // the first word names no command
    UnknownCommand,
    // the word after the total names no key
    UnknownKey,
    TooFewWords,
    TooManyWords,
    // a word that is not digits, or has none
    NotANumber,
    // digits whose number is out of the range of its type
    DoesNotFit,
}

impl LineFault {
    // Beside the `Display`, which writes them: text that may be held, as no `Display` is.
    pub fn words(self) -> &'static str
        ensures { result.now ≡ fault_text self }
    {
        match self {
            LineFault::UnknownCommand => "unknown command",
            LineFault::UnknownKey => "unknown key",
            LineFault::TooFewWords => "too few words",
            LineFault::TooManyWords => "too many words",
            LineFault::NotANumber => "not a number",
            LineFault::DoesNotFit => "a number that does not fit",
        }
    }
}

// Written by hand, since no contract says what a derived text is.
impl fmt::Display for LineFault {
    ghost output = { λ f. Some (fault_text f) };

    fn fmt<W: fmt::Write>(&self, f: &mut fmt::Formatter<W>) -> fmt::Result {
        f.write_str(self.words())
    }
}

impl Error for LineFault {}
