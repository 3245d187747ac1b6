// Residues.
ghost use Rattle.std.specs.Prelude.{◌≡◌, ◌≤◌, ◌==◌};
ghost use Rattle.domains.specs.Answers.{Residue};
ghost use Rattle.byte_polys.specs.ByteField.{byte_polys, number, poly};

use crate::row::Row;
use crate::value::{BytePoly, BytePolyModulus};

impl<const N: usize> Row<N> {
    // The residue of the polynomial; 0 where the modulus is one of another p.
    pub(crate) fn residue(self, m: BytePolyModulus) -> BytePoly
        requires long { 8 ≤ N }
        ensures p { result.p ≡ self.entry.field.p }
        ensures value { Residue (byte_polys self.entry.field.p self.entry.field.prime) (m.p == self.entry.field.p) (number m.coefficients) (poly self.entry.field.p self.entry.field.prime self.entry.coefficients) (number result.coefficients) }
    {
        let field = self.field;
        if m.p != field.p {
            return field.zero();
        }
        let (_, rest) = m.divisor().long_division(self);
        let rest = rest.coefficients;
        let mut coefficients = [0; 8];
        coefficients.copy_from_slice(&rest[..8]);
        BytePoly {
            coefficients,
            p: field.p,
        }
    }
}
