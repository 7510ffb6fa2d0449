// What a call was refused by.
use spread::fault::Numbered;

// The number of a refusal, and 0 where there is none.
pub fn refusal<T: Drop, F: Numbered>(done: Result<T, F>) -> u8 {
    done.err().map_or(0, |fault| fault.number())
}
