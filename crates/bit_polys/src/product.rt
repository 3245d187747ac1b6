// Multiplication of words as polynomials.
ghost use Rattle.std.specs.Prelude.{◌≡◌};
ghost use Rattle.domains.specs.Answers.{times};
ghost use Rattle.bit_polys.specs.BitPolys.{bit_polys, polynomial_of};

// The product of a and b. Each turn takes the highest bit that is left of b, and adds a, shifted by its place.
pub(crate) fn product(a: u32, b: u32) -> u64
    ensures { polynomial_of result ≡ times bit_polys a b }
{
    let mut sum: u64 = 0;
    let mut rest = b;
    while rest != 0 {
        let shift = rest.ilog2();
        sum ^= (a as u64) << shift;
        rest ^= 1 << shift;
    }
    sum
}
