// Why a key is not made or a total is not spread.
ghost use Rattle.std.specs.Prelude.{◌≡◌, Some};
ghost use Rattle.spread.specs.Faults.{Told, told, layer_text, reason_text};

use std::error::Error;
use std::fmt;

// The layer of the product that refuses.
#[derive(Clone, Copy, PartialEq, Eq, Debug)]
pub enum Layer {
    Spread,
    Month,
    Book,
}

impl fmt::Display for Layer {
    ghost output = { λ l. Some (layer_text l) };

    fn fmt<W: fmt::Write>(&self, f: &mut fmt::Formatter<W>) -> fmt::Result {
        f.write_str(match self {
            Self::Spread => "spread",
            Self::Month => "month",
            Self::Book => "book",
        })
    }
}

// What a refusal tells, whichever layer it is of.
pub trait Numbered: Copy {
    // Its number and its layer.
    ghost tells: { Self → Told };

    fn number(self) -> u8
        ensures { result ≡ (tells self).number };

    fn layer(self) -> Layer
        ensures { result ≡ (tells self).layer };
}

#[derive(Clone, Copy, PartialEq, Eq, Debug)]
pub enum SpreadFault {
    // the list of parts is not as long as the key
    Places,
    // the size of the total times the sum of the weights is over its limit
    TooLarge,
    // the total is not 0 and the weights sum to 0
    NoWeight,
    // what was handed in is over the limits of a key
    NoKey,
}

impl Numbered for SpreadFault {
    ghost tells = { told };

    fn number(self) -> u8 {
        match self {
            SpreadFault::Places => 31,
            SpreadFault::TooLarge => 32,
            SpreadFault::NoWeight => 33,
            SpreadFault::NoKey => 34,
        }
    }

    fn layer(self) -> Layer {
        Layer::Spread
    }
}

// The reason, for a person. It is written by hand, since no contract says what a derived text is.
impl fmt::Display for SpreadFault {
    ghost output = { λ f. Some (reason_text f) };

    fn fmt<W: fmt::Write>(&self, f: &mut fmt::Formatter<W>) -> fmt::Result {
        f.write_str(match self {
            Self::Places => "the list of parts is not as long as the key",
            Self::TooLarge =>
                "the size of the total times the sum of the weights is over 9,000,000,000,000,000,000",
            Self::NoWeight => "the total is not 0 and the weights sum to 0",
            Self::NoKey =>
                "over 745 places, a weight over 10,000,000,000, or a line with a gap over 8 or a reading over 2,000,000",
        })
    }
}

impl Error for SpreadFault {}
