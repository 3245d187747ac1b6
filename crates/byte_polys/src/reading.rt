// What a value is, read off its coefficients.
ghost use Rattle.std.specs.Prelude.{◌≡◌, MatchOption};
ghost use Rattle.byte_polys.specs.ByteField.{number};
ghost use Rattle.byte_polys.specs.Steps.{Top, ZeroFrom};

use crate::value::{BytePoly, BytePolyModulus};

impl BytePoly {
    // The bytes as one number, that of x^0 the lowest.
    pub(crate) fn word(self) -> u64
        ensures { result ≡ number self.coefficients }
    {
        u64::from_le_bytes(self.coefficients)
    }

    // The place of the highest coefficient that is not 0; none for the polynomial 0.
    pub(crate) fn degree(self) -> Option<usize>
        ensures { MatchOption result (ZeroFrom 0 self.coefficients) (λ n. Top self.coefficients n) }
    {
        self.coefficients.iter().rposition(|c| *c != 0)
    }
}

impl BytePolyModulus {
    // The modulus as a value.
    pub(crate) fn value(self) -> BytePoly
        ensures p { result.p ≡ self.p }
        ensures coefficients { result.coefficients ≡ self.coefficients }
    {
        let coefficients = self.coefficients;
        BytePoly {
            coefficients,
            p: self.p,
        }
    }
}
