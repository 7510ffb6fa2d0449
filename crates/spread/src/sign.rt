// A signed energy taken apart into size and sign, and put together again.
ghost use Rattle.std.specs.Prelude.{◌≡◌, ◌^◌, ◌<◌, unsigned_abs};
ghost use Rattle.spread.specs.Signs.{sign_of, put};

use crate::units::Kwh;

// The sign of a total. 0 counts as above.
#[derive(Clone, Copy, PartialEq, Eq, Debug)]
pub enum Sign {
    Above,
    Below,
}

impl Kwh {
    // The size of the energy: under its sign it is the energy again.
    pub fn size(self) -> u64
        ensures value { result ≡ unsigned_abs self.0 }
        ensures back { put (sign_of self.0) result ≡ self.0 }
    {
        self.0.unsigned_abs()
    }

    pub fn sign(self) -> Sign
        ensures { result ≡ sign_of self.0 }
    {
        if self.0 < 0 { Sign::Below } else { Sign::Above }
    }
}

impl Sign {
    // The energy of a size under this sign.
    pub(crate) fn put(self, size: u64) -> Kwh
        requires { size < 2 ^ 63 }
        ensures { result.0 ≡ put self size }
    {
        match self {
            Sign::Above => Kwh(size as i64),
            Sign::Below => Kwh(-(size as i64)),
        }
    }
}
