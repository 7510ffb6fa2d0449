// A line of a month file, read as a command.
ghost use Rattle.std.specs.Prelude.{◌≡◌, true, IsErrOf, alloc_error};
ghost use Rattle.monthfile.specs.Words.{words_of};
ghost use Rattle.monthfile.specs.Numbers.{widest};
ghost use Rattle.monthfile.specs.Lines.{commentless};
ghost use Rattle.monthfile.specs.Said.{said, said_key};
ghost use Rattle.monthfile.specs.Commands.{took_word, took, took_signed, ended, flat_of, list_of, straight_of, key_of, spread_of, list_first, list_second, takes_memory};
ghost use Rattle.monthfile.specs.Meaning.{meant_by, line_of};
ghost use Rattle.monthfile.specs.Reading.{Reads, ReadsOrWants, ReadsLine};

use crate::command::{Command, Weights};
use crate::fault::LineFault;
use crate::lines::uncommented;
use crate::number::{number, signed_number};
use crate::stop::Stop;
use crate::words::Words;
use spread::units::{Kwh, Metered};
use std::alloc::Global;

// Only what may come to a list is handed memory, so the words do not hold it.
impl<'a> Words<'a> {
    fn word(&mut self) -> Result<&'a [u8], LineFault>
        ensures { Reads (λ w. (w.now, self.new)) (took_word self.old) result }
    {
        self.next().ok_or(LineFault::TooFewWords)
    }

    fn number(&mut self) -> Result<u64, LineFault>
        ensures { Reads (λ n. (n, self.new)) (took widest self.old) result }
    {
        number(self.word()?)
    }

    fn total(&mut self) -> Result<Kwh, LineFault>
        ensures { Reads (λ t. (t.0, self.new)) (took_signed self.old) result }
    {
        Ok(Kwh(signed_number(self.word()?)?))
    }

    // No word is left.
    fn end(&mut self) -> Result<(), LineFault>
        ensures { Reads (λ u. u) (ended self.old) result }
    {
        match self.next() {
            Some(_) => Err(LineFault::TooManyWords),
            None => Ok(()),
        }
    }

    fn flat_key(&mut self) -> Result<Weights, LineFault>
        ensures { Reads said_key (flat_of self.old) result }
    {
        let count = self.number()?;
        self.end()?;
        Ok(Weights::Flat(count))
    }

    fn line_key(&mut self) -> Result<Weights, LineFault>
        ensures { Reads said_key (straight_of self.old) result }
    {
        let gap = self.number()?;
        let before = Metered(self.number()?);
        let after = Metered(self.number()?);
        self.end()?;
        Ok(Weights::Line { gap, before, after })
    }

    // The numbers in all the words that are left.
    fn list_key(&mut self, heap: Global) -> Result<Weights, Stop<LineFault>>
        ensures { ReadsOrWants said_key true (list_of self.old) result }
    {
        let mut weights = Vec::new(heap);
        for word in self {
            weights.push(number(word)?)?;
        }
        Ok(Weights::List(weights))
    }

    fn key(&mut self, heap: Global) -> Result<Weights, Stop<LineFault>>
        ensures { ReadsOrWants said_key (list_first self.old) (key_of self.old) result }
    {
        match self.word()? {
            b"flat" => Ok(self.flat_key()?),
            b"list" => self.list_key(heap),
            b"line" => Ok(self.line_key()?),
            _ => Err(Stop::Fault(LineFault::UnknownKey)),
        }
    }

    fn spread_command(&mut self, heap: Global) -> Result<Command, Stop<LineFault>>
        ensures { ReadsOrWants said (list_second self.old) (spread_of self.old) result }
    {
        let total = self.total()?;
        let over = self.key(heap)?;
        Ok(Command::Spread { total, over })
    }

    fn command(&mut self, heap: Global) -> Result<Option<Command>, Stop<LineFault>>
        ensures reads { ReadsLine (meant_by self.old) result }
        ensures memory { IsErrOf result (Stop.NoMemory alloc_error) → takes_memory self.old ≡ true }
    {
        match self.next() {
            None => Ok(None),
            Some(b"spread") => self.spread_command(heap).map(Some),
            Some(_) => Err(Stop::Fault(LineFault::UnknownCommand)),
        }
    }
}

// The command that a line asks for; none where it has no words. Only a list takes memory.
pub fn read_line(heap: Global, line: &[u8]) -> Result<Option<Command>, Stop<LineFault>>
    ensures reads { ReadsLine (line_of line.now) result }
    ensures memory { IsErrOf result (Stop.NoMemory alloc_error) → takes_memory (words_of (commentless line.now)) ≡ true }
{
    Words::new(uncommented(line)).command(heap)
}
