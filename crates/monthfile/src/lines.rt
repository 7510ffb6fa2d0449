// The lines of a text, and a line without its comment.
ghost use Rattle.std.specs.Prelude.{◌≡◌};
ghost use Rattle.std.specs.Iterator.{YieldsFirstRef, item_count};
ghost use Rattle.monthfile.specs.Lines.{lines_of, commentless};

use std::marker::Model;

const LINE_BREAK: u8 = b'\n';

const COMMENT: u8 = b'#';

// The lines that are left of a text. It is alike to `Words` but for what is cut and where; one struct over a trait that says so would be longer than both.
#[derive(Drop)]
pub struct Lines<'a> {
    left: &'a [u8],
}

impl<'a> Model for Lines<'a> {
    ghost use Rattle.std.specs.Prelude.{ℕ, List};
    ghost use Rattle.monthfile.specs.Lines.{lines_of};

    ghost Value = { List (List ℕ) };

    ghost view = { λ l. lines_of l.left.now };
}

impl<'a> Lines<'a> {
    pub fn new(text: &'a [u8]) -> Lines<'a>
        ensures { result ≡ lines_of text.now }
    {
        Lines { left: text }
    }
}

impl<'a> Iterator for Lines<'a> {
    type Item = &'a [u8];

    ghost next_gives = { YieldsFirstRef (λ l. l) };

    ghost remaining = { item_count (λ l. l) };

    fn next(&mut self) -> Option<&'a [u8]> {
        let text = self.left;
        if text.is_empty() {
            return None;
        }
        match text.iter().position(|b| *b == LINE_BREAK) {
            Some(end) => {
                self.left = &text[end + 1..];
                Some(&text[..end])
            }
            None => {
                self.left = &[];
                Some(text)
            }
        }
    }
}

// The line up to its comment.
pub fn uncommented(line: &[u8]) -> &[u8]
    ensures { result.now ≡ commentless line.now }
{
    match line.iter().position(|b| *b == COMMENT) {
        Some(end) => &line[..end],
        None => line,
    }
}
