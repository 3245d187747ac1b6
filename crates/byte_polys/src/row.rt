// Rows of coefficients.
ghost use Rattle.std.specs.Prelude.{◌≡◌};
ghost use Rattle.byte_polys.specs.Steps.{Below};

use crate::field::BytePolys;
use crate::value::BytePoly;

// The coefficients of a polynomial over the field, that of x^0 first.
#[derive(Clone, Copy)]
pub(crate) struct Row<const N: usize> {
    pub(crate) field: BytePolys,
    pub(crate) coefficients: [u8; N],
    ghost below: { Below field.p coefficients },
}

impl BytePolys {
    // A value of the domain's own as a row.
    pub(crate) fn row(self, a: BytePoly) -> Row<8>
        requires { a.p ≡ self.p }
        ensures field { result.field ≡ self }
        ensures coefficients { result.coefficients ≡ a.coefficients }
    {
        let coefficients = a.coefficients;
        Row {
            field: self,
            coefficients,
        }
    }
}

impl Row<8> {
    // The row as a value.
    pub(crate) fn value(self) -> BytePoly
        ensures p { result.p ≡ self.field.p }
        ensures coefficients { result.coefficients ≡ self.coefficients }
    {
        let coefficients = self.coefficients;
        BytePoly {
            coefficients,
            p: self.field.p,
        }
    }
}
