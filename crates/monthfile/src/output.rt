// A whole month file: each of its lines answered, in order.
ghost use Rattle.std.specs.Prelude.{◌≡◌, true, false, is_ok, IfOk, string_bytes};
ghost use Rattle.monthfile.specs.Lines.{lines_of};
ghost use Rattle.monthfile.specs.Meaning.{line_of};
ghost use Rattle.monthfile.specs.Output.{line_text, mistaken_line, has_words, output_of, mistaken_in, some_words};

use crate::lines::Lines;
use crate::read::read_line;
use crate::stop::Stop;
use std::alloc::{AllocError, Global};

// What a month file is answered with. By the rules every line is answered, a mistaken one too, so the text stands whatever the flag says.
#[derive(Drop)]
pub struct Output {
    pub text: String,
    // some line is no command
    pub mistaken: bool,
}

// The answer to the line of a number, and its line break; nothing for a line without words, which takes no memory.
fn line_answer(heap: Global, number: usize, line: &[u8]) -> Result<Output, AllocError>
    ensures text { IfOk result (λ o. (string_bytes o.text ≡ line_text number line.now) × (o.mistaken ≡ mistaken_line line.now)) }
    ensures memory { is_ok result ≡ false → has_words (line_of line.now) ≡ true }
{
    let (text, mistaken) = match read_line(heap, line) {
        Ok(None) => (String::new(heap), false),
        Ok(Some(command)) => {
            let answer = command.answer(heap)?;
            (format!(in heap; "{number}: {answer}\n")?, false)
        }
        Err(Stop::Fault(fault)) => (format!(in heap; "{number}: error: {fault}\n")?, true),
        Err(Stop::NoMemory(error)) => return Err(error),
    };
    Ok(Output { text, mistaken })
}

// Answers every line of a month file. One without words takes no memory.
pub fn run(heap: Global, file: &[u8]) -> Result<Output, AllocError>
    ensures text { IfOk result (λ o. (string_bytes o.text ≡ output_of file.now) × (o.mistaken ≡ mistaken_in file.now)) }
    ensures memory { is_ok result ≡ false → some_words (lines_of file.now) ≡ true }
{
    let mut text = String::new(heap);
    let mut mistaken = false;
    for (index, line) in Lines::new(file).enumerate() {
        let answered = line_answer(heap, index + 1, line)?;
        text.push_str(&answered.text)?;
        mistaken |= answered.mistaken;
    }
    Ok(Output { text, mistaken })
}
