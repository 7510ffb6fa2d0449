// The spread of a signed total over a key.
ghost use Rattle.std.specs.Prelude.{◌≡◌, true, length, is_ok};
ghost use Rattle.spread.specs.Outcome.{answer_of, unless_fault};
ghost use Rattle.spread.specs.Shares.{share, spread_fault};
ghost use Rattle.spread.specs.Laws.{Lawful};

use crate::cursor::Cursor;
use crate::fault::SpreadFault;
use crate::key::Key;
use crate::units::Kwh;

// Writes the parts of a total over a key into a list as long as the key. Key and total come apart: a struct of both would only be taken apart again.
pub fn spread<K: Key>(key: &K, total: Kwh, parts: &mut [Kwh]) -> Result<(), SpreadFault>
    ensures answer { result ≡ answer_of (spread_fault total.0 (K.weights key.now) (length parts.old)) }
    ensures parts { parts.new ≡ unless_fault (spread_fault total.0 (K.weights key.now) (length parts.old)) parts.old (share total.0 (K.weights key.now)) }
    ensures law { is_ok result ≡ true → Lawful total.0 (K.weights key.now) parts.new }
{
    if parts.len() != key.len() {
        return Err(SpreadFault::Places);
    }
    let mut cursor = Cursor::new(key, total)?;
    for part in parts.iter_mut() {
        *part = cursor.next_part(key);
    }
    Ok(())
}
