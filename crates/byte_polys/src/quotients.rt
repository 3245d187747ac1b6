// Quotients and monic multiples. For values of another p all answers are 0.
ghost use Rattle.std.specs.Prelude.{◌≡◌, ◌==◌, ◌&&◌, MatchBool};
ghost use Rattle.domains.specs.Answers.{Divided, Normalized, Zeros};
ghost use Rattle.byte_polys.specs.ByteField.{byte_polys, number};
ghost use Rattle.byte_polys.specs.Steps.{Normalizer};

use crate::field::BytePolys;
use crate::value::BytePoly;

impl BytePolys {
    // Quotient and remainder of a by b; by 0 they are 0 and a.
    pub(crate) fn quotient_and_remainder(self, a: BytePoly, b: BytePoly) -> (BytePoly, BytePoly)
        ensures p { (result.0.p ≡ self.p) × (result.1.p ≡ self.p) }
        ensures parts { MatchBool (a.p == self.p && b.p == self.p) (Divided (byte_polys self.p self.prime) (number a.coefficients) (number b.coefficients) (number result.0.coefficients) (number result.1.coefficients)) (Zeros (byte_polys self.p self.prime) (number result.0.coefficients) (number result.1.coefficients)) }
    {
        if !self.owns(a, b) {
            return (self.zero(), self.zero());
        }
        match b.divisor() {
            Some(divisor) => divisor.divide(a),
            None => (self.zero(), a),
        }
    }

    // The monic multiple of a and the unit used; for 0 they are 0 and 1.
    pub(crate) fn monic_multiple(self, a: BytePoly) -> (BytePoly, BytePoly)
        ensures p { (result.0.p ≡ self.p) × (result.1.p ≡ self.p) }
        ensures parts { MatchBool (a.p == self.p) (Normalized (byte_polys self.p self.prime) (number a.coefficients) (number result.0.coefficients) (number result.1.coefficients)) (Zeros (byte_polys self.p self.prime) (number result.0.coefficients) (number result.1.coefficients)) }
    {
        if a.p != self.p {
            return (self.zero(), self.zero());
        }
        let unit = a.normalizer();
        let multiple = self.plus_multiple([0; 8], unit, a.coefficients).value();
        let unit = BytePoly {
            coefficients: [unit, 0, 0, 0, 0, 0, 0, 0],
            p: self.p,
        };
        (multiple, unit)
    }
}

impl BytePoly {
    // The inverse of the leading coefficient; 1 for the polynomial 0.
    fn normalizer(self) -> u8
        ensures { Normalizer self.p self.coefficients result }
    {
        match self.divisor() {
            Some(divisor) => divisor.inverse,
            None => 1,
        }
    }
}
