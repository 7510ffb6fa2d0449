// What a command is answered with.
ghost use Rattle.std.specs.Prelude.{◌≡◌, true, false, is_ok, IfOk, Some, vec_items};
ghost use Rattle.spread.specs.Laws.{Lawful};
ghost use Rattle.monthfile.specs.Reading.{ReadsOrWants};
ghost use Rattle.monthfile.specs.Said.{said};
ghost use Rattle.monthfile.specs.Replies.{tells, LawfulReply, spread_reply, reply_to, reply_text};

use crate::command::{Command, Weights};
use crate::stop::Stop;
use spread::cursor::Cursor;
use spread::fault::{Numbered, SpreadFault};
use spread::flat::Flat;
use spread::key::Key;
use spread::line::Line;
use spread::numbers::Numbers;
use spread::spreading::spread;
use spread::units::Kwh;
use std::alloc::{AllocError, Global};
use std::fmt;

// The parts, or why the rules refuse them.
#[derive(Drop)]
pub struct Answer(pub Result<Vec<Kwh>, SpreadFault>);

// Its list is written as a command's weights are; one function over any item would have to name that item's text.
impl fmt::Display for Answer {
    ghost output = { λ a. Some (reply_text (tells a)) };

    fn fmt<W: fmt::Write>(&self, f: &mut fmt::Formatter<W>) -> fmt::Result {
        match &self.0 {
            Ok(parts) => {
                f.write_str("ok")?;
                for part in parts {
                    write!(f, " {part}")?;
                }
                Ok(())
            }
            Err(fault) => write!(f, "refused {} {}: {fault}", fault.number(), fault.layer()),
        }
    }
}

// The parts of a total over a key. What is refused takes no memory.
fn spread_over<K: Key>(heap: Global, key: &K, total: Kwh) -> Result<Vec<Kwh>, Stop<SpreadFault>>
    ensures law { IfOk result (λ v. Lawful total.0 (K.weights key.now) (vec_items v)) }
    ensures reply { let reply = spread_reply total.0 (K.weights key.now) in ReadsOrWants vec_items (is_ok reply) reply result }
{
    Cursor::new(key, total)?;
    let mut parts = vec![in heap; Kwh(0); key.len()]?;
    spread(key, total, &mut parts)?;
    Ok(parts)
}

impl Command {
    fn parts(&self, heap: Global) -> Result<Vec<Kwh>, Stop<SpreadFault>>
        ensures law { IfOk result (λ v. LawfulReply (said self.now) (Ok (vec_items v))) }
        ensures reply { let reply = reply_to (said self.now) in ReadsOrWants vec_items (is_ok reply) reply result }
    {
        let Command::Spread { total, over } = self;
        match over {
            Weights::Flat(count) => spread_over(heap, &Flat::new(*count as usize)?, *total),
            Weights::List(list) => spread_over(heap, &Numbers::new(list)?, *total),
            Weights::Line { gap, before, after } => {
                spread_over(heap, &Line::new(*gap as usize, *before, *after)?, *total)
            }
        }
    }

    // Does what the command asks for. Only parts take memory.
    pub fn answer(&self, heap: Global) -> Result<Answer, AllocError>
        ensures law { IfOk result (λ a. LawfulReply (said self.now) (tells a)) }
        ensures reply { IfOk result (λ a. tells a ≡ reply_to (said self.now)) }
        ensures memory { is_ok result ≡ false → is_ok (reply_to (said self.now)) ≡ true }
    {
        match self.parts(heap) {
            Ok(parts) => Ok(Answer(Ok(parts))),
            Err(Stop::Fault(fault)) => Ok(Answer(Err(fault))),
            Err(Stop::NoMemory(error)) => Err(error),
        }
    }
}
