// The steps of the calculation with coefficients modulo p.
ghost use Rattle.std.specs.Prelude.{◌≡◌, ◌+◌, ◌*◌, ◌%◌, ◌≤◌, length};
ghost use Rattle.domains.specs.Answers.{sum, difference};
ghost use Rattle.byte_polys.specs.ByteField.{byte_polys, number, poly};
ghost use Rattle.byte_polys.specs.Steps.{Added};

use crate::field::BytePolys;
use crate::row::Row;
use crate::value::BytePoly;

impl BytePolys {
    // a + c·b modulo p. The sum is at most 255 + 255·255, so it fits 16 bits.
    pub(crate) fn fused(self, a: u8, c: u8, b: u8) -> u8
        ensures { result ≡ (a + c * b) % self.p }
    {
        ((u16::from(a) + u16::from(c) * u16::from(b)) % u16::from(self.p)) as u8
    }

    // The row of a + c·b, for any bytes as the coefficients of a and b.
    pub(crate) fn plus_multiple(self, a: [u8; 8], c: u8, b: [u8; 8]) -> Row<8>
        ensures field { result.field ≡ self }
        ensures sum { Added self.p c 0 8 a b result.coefficients }
    {
        Row {
            field: self,
            coefficients: std::array::from_fn(|i| self.fused(a[i], c, b[i])),
        }
    }

    // The row of a + b.
    pub(crate) fn sum(self, a: BytePoly, b: BytePoly) -> Row<8>
        ensures field { result.field ≡ self }
        ensures value { poly self.p self.prime result.coefficients ≡ sum (byte_polys self.p self.prime) (number a.coefficients) (number b.coefficients) }
    {
        self.plus_multiple(a.coefficients, 1, b.coefficients)
    }

    // The row of a − b: p − 1 stands for −1.
    pub(crate) fn difference(self, a: BytePoly, b: BytePoly) -> Row<8>
        ensures field { result.field ≡ self }
        ensures value { poly self.p self.prime result.coefficients ≡ difference (byte_polys self.p self.prime) (number a.coefficients) (number b.coefficients) }
    {
        self.plus_multiple(a.coefficients, self.p - 1, b.coefficients)
    }

    // Adds c·b to a, coefficient by coefficient.
    pub(crate) fn add_multiple(self, a: &mut [u8], c: u8, b: &[u8])
        requires { length b.now ≤ length a.old }
        ensures { Added self.p c 0 (length b.now) a.old b.now a.new }
    {
        for (i, y) in b.iter().enumerate() {
            a[i] = self.fused(a[i], c, *y);
        }
    }
}
