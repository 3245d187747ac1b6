// Products and derivatives.
ghost use Rattle.std.specs.Prelude.{◌≡◌, ℕ, ◌+◌, ◌*◌, ◌%◌, ◌<◌, slice_index};
ghost use Rattle.domains.specs.Answers.{times};
ghost use Rattle.byte_polys.specs.ByteField.{byte_polys, number, poly};
ghost use Rattle.byte_polys.specs.Steps.{products};

use crate::field::BytePolys;
use crate::row::Row;
use crate::value::BytePoly;

// The sum of the products of the coefficients of x^i and x^(k − i), at most 8. Each product is at most 255·255, so the
// sum fits 32 bits, and nothing is reduced on the way. The loop goes over the place i, as the pairs (i, k − i) are what is
// meant.
fn column(a: &[u8; 8], b: &[u8; 8], k: usize) -> u32
    requires { k < 15 }
    ensures { result ≡ products a.now b.now k (k + 1) }
{
    let mut sum = 0;
    for i in k.saturating_sub(7)..k.min(7) + 1 {
        sum += a[i] as u32 * b[k - i] as u32;
    }
    sum
}

impl BytePolys {
    // The row of a·b: each sum of products is reduced once.
    pub(crate) fn product(self, a: BytePoly, b: BytePoly) -> Row<15>
        ensures field { result.field ≡ self }
        ensures value { poly self.p self.prime result.coefficients ≡ times (byte_polys self.p self.prime) (number a.coefficients) (number b.coefficients) }
    {
        Row {
            field: self,
            coefficients: std::array::from_fn(|k| {
                (column(&a.coefficients, &b.coefficients, k) % u32::from(self.p)) as u8
            }),
        }
    }

    // The coefficients of the derivative of a.
    pub(crate) fn derivative_of(self, a: &[u8; 8]) -> [u8; 8]
        ensures each { (k : ℕ) → k < 7 → slice_index result k ≡ ((k + 1) * slice_index a.now (k + 1)) % self.p }
        ensures last { slice_index result 7 ≡ 0 }
    {
        std::array::from_fn(|k| {
            if k < 7 {
                self.fused(0, (k + 1) as u8, a[k + 1])
            } else {
                0
            }
        })
    }
}
