// Division by a polynomial other than 0.
ghost use Rattle.std.specs.Prelude.{◌≡◌, ◌<◌, ◌≤◌, MatchOption};
ghost use Rattle.domains.specs.Answers.{Divided};
ghost use Rattle.byte_polys.specs.ByteField.{byte_polys, number};
ghost use Rattle.byte_polys.specs.Domain.{Leaves};
ghost use Rattle.byte_polys.specs.Steps.{ZeroFrom, Divisor as divides_by};

use crate::field::BytePolys;
use crate::row::Row;
use crate::value::{BytePoly, BytePolyModulus};

// A polynomial other than 0 over a field. Its degree and the inverse of its leading coefficient stand beside it, so that
// no turn of a division has to look for them.
#[derive(Clone, Copy)]
pub(crate) struct Divisor {
    pub(crate) field: BytePolys,
    pub(crate) coefficients: [u8; 8],
    pub(crate) degree: usize,
    pub(crate) inverse: u8,
    ghost divides: { divides_by field.p coefficients degree inverse },
    ghost small: { inverse < field.p },
}

impl BytePoly {
    // The polynomial as a divisor; none for the polynomial 0.
    pub(crate) fn divisor(self) -> Option<Divisor>
        ensures { MatchOption result (ZeroFrom 0 self.coefficients) (λ d. (d.field.p ≡ self.p) × (d.coefficients ≡ self.coefficients)) }
    {
        let degree = self.degree()?;
        let field = BytePolys { p: self.p };
        let coefficients = self.coefficients;
        Some(Divisor {
            field,
            coefficients,
            degree,
            inverse: field.inverse(coefficients[degree]),
        })
    }
}

impl BytePolyModulus {
    // The modulus as a divisor. It is monic, so the inverse of its leading coefficient is 1.
    pub(crate) fn divisor(self) -> Divisor
        ensures field { result.field.p ≡ self.p }
        ensures coefficients { result.coefficients ≡ self.coefficients }
    {
        let coefficients = self.coefficients;
        Divisor {
            field: BytePolys { p: self.p },
            coefficients,
            degree: self.degree,
            inverse: 1,
        }
    }
}

impl Divisor {
    // Quotient and remainder of a. In each turn the highest coefficient that is left is taken away with a multiple of the
    // divisor, unless it is 0 already. The loop goes over its place, as it writes two arrays at different places.
    pub(crate) fn long_division<const N: usize>(self, a: Row<N>) -> (Row<N>, Row<N>)
        requires long { self.degree ≤ N }
        requires field { a.field.p ≡ self.field.p }
        ensures field { (result.0.field ≡ self.field) × (result.1.field ≡ self.field) }
        ensures small { ZeroFrom self.degree result.1.coefficients }
        ensures sum { Leaves self.field.p self.field.prime a.entry.coefficients self.coefficients result.0.coefficients result.1.coefficients }
    {
        let Divisor {
            field,
            coefficients,
            degree,
            inverse,
        } = self;
        let mut quotient = [0; N];
        let mut remainder = a.coefficients;
        let rest = &mut remainder[..];
        for top in (degree..N).rev() {
            if rest[top] != 0 {
                let c = field.fused(0, rest[top], inverse);
                quotient[top - degree] = c;
                field.add_multiple(
                    &mut rest[top - degree..=top],
                    field.p - c,
                    &coefficients[..=degree],
                );
            }
        }
        let quotient = Row {
            field,
            coefficients: quotient,
        };
        let remainder = Row {
            field,
            coefficients: remainder,
        };
        (quotient, remainder)
    }

    // Quotient and remainder of a.
    pub(crate) fn divide(self, a: BytePoly) -> (BytePoly, BytePoly)
        requires { a.p ≡ self.field.p }
        ensures p { (result.0.p ≡ a.p) × (result.1.p ≡ a.p) }
        ensures parts { Divided (byte_polys self.field.p self.field.prime) (number a.coefficients) (number self.coefficients) (number result.0.coefficients) (number result.1.coefficients) }
    {
        let (quotient, remainder) = self.long_division(self.field.row(a));
        (quotient.value(), remainder.value())
    }
}
