// The units: energy, price and money. One product joins them, and nothing adds one to another. Each is a struct by the rules of the product, and not one generic over its unit.
ghost use Rattle.std.specs.Prelude.{◌≡◌, Some, decimal};
ghost use Rattle.std.specs.Fmt.{signed_decimal};
ghost use Rattle.spread.specs.Units.{money_of};

use std::fmt;

// Energy in kWh, with a sign: above 0 where it is generated or added, below 0 where it is drawn or taken off.
#[derive(Clone, Copy, PartialEq, Eq, Debug)]
pub struct Kwh(pub i64);

// Energy in kWh that counts from 0, as a meter tells it.
#[derive(Clone, Copy, PartialEq, Eq, Debug)]
pub struct Metered(pub u64);

// A price in euro cents per MWh.
#[derive(Clone, Copy, PartialEq, Eq, Debug)]
pub struct Price(pub i64);

// Money in thousandths of a cent, with a sign.
#[derive(Clone, Copy, PartialEq, Eq, Debug)]
pub struct Money(pub i64);

// Money in thousandths of a cent that counts from 0, as a posting moves it.
#[derive(Clone, Copy, PartialEq, Eq, Debug)]
pub struct Amount(pub u64);

impl Price {
    // What an energy costs, without rounding: cents per MWh times kWh is thousandths of a cent. None where the product does not fit 64 bits.
    pub fn times(self, energy: Kwh) -> Option<Money>
        ensures { result ≡ money_of self.0 energy.0 }
    {
        self.0.checked_mul(energy.0).map(Money)
    }
}

impl fmt::Display for Kwh {
    ghost output = { λ e. Some (signed_decimal e.0) };

    fn fmt<W: fmt::Write>(&self, f: &mut fmt::Formatter<W>) -> fmt::Result {
        let Kwh(energy) = self;
        energy.fmt(f)
    }
}

impl fmt::Display for Metered {
    ghost output = { λ e. Some (decimal e.0) };

    fn fmt<W: fmt::Write>(&self, f: &mut fmt::Formatter<W>) -> fmt::Result {
        let Metered(reading) = self;
        reading.fmt(f)
    }
}

impl fmt::Display for Amount {
    ghost output = { λ m. Some (decimal m.0) };

    fn fmt<W: fmt::Write>(&self, f: &mut fmt::Formatter<W>) -> fmt::Result {
        let Amount(size) = self;
        size.fmt(f)
    }
}
