// Numbers as the words of a line write them.
ghost use Rattle.std.specs.Prelude.{◌≡◌, ◌+◌, ◌*◌};
ghost use Rattle.monthfile.specs.Numbers.{widest, numeral, within, number_in, signed_in};

use crate::fault::LineFault;

// Whether a word is digits, at least one.
fn is_numeral(word: &[u8]) -> bool
    ensures { result ≡ numeral word.now }
{
    !word.is_empty() && word.iter().all(|b| b.is_ascii_digit())
}

// The number that one digit more makes.
fn with_digit(n: u64, digit: u8) -> Result<u64, LineFault>
    ensures { result ≡ within widest (n * 10 + digit) }
{
    n.checked_mul(10)
        .and_then(|tens| tens.checked_add(u64::from(digit)))
        .ok_or(LineFault::DoesNotFit)
}

// The number that the digits of a word write, where a u64 holds it.
pub fn number(word: &[u8]) -> Result<u64, LineFault>
    ensures { result ≡ number_in widest word.now }
{
    if !is_numeral(word) {
        return Err(LineFault::NotANumber);
    }
    let mut n = 0;
    for b in word {
        n = with_digit(n, *b - b'0')?;
    }
    Ok(n)
}

// The number of a word that may begin with a minus sign.
pub fn signed_number(word: &[u8]) -> Result<i64, LineFault>
    ensures { result ≡ signed_in word.now }
{
    let signed = match word.strip_prefix(b"-") {
        Some(digits) => 0i64.checked_sub_unsigned(number(digits)?),
        None => i64::try_from(number(word)?).ok(),
    };
    signed.ok_or(LineFault::DoesNotFit)
}
