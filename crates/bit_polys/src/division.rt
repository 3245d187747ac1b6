// Division of words as polynomials.
ghost use Rattle.std.specs.Prelude.{◌<◌};
ghost use Rattle.bit_polys.specs.Division.{LongDivision};

// Quotient and remainder of a by b. While the degree of the rest is not below that of b, a turn takes away b, shifted so
// that the highest bit of the rest is cleared.
pub(crate) fn long_division(a: u64, b: u32) -> (u64, u32)
    requires { 0 < b }
    ensures { LongDivision a b result.0 result.1 }
{
    let degree = b.ilog2();
    let mut quotient: u64 = 0;
    let mut rest = a;
    while rest >> degree != 0 {
        let shift = rest.ilog2() - degree;
        quotient ^= 1 << shift;
        rest ^= (b as u64) << shift;
    }
    (quotient, rest as u32)
}
