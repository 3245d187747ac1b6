// The polynomials over GF(2), as far as it takes to see whether one is squarefree.
ghost use Rattle.bit_polys.specs.BitPolys.{bit_scalars, polynomial_of};

use crate::arithmetic::quotient_and_remainder;
use crate::domain::BitPolys;
use crate::value::BitPoly;
use polynomial_domains::Polynomials;

impl Polynomials for BitPolys {
    type Polynomial = BitPoly;

    ghost scalars = { λ _. bit_scalars };

    ghost stands_for = { λ _ a. polynomial_of a.word };

    // Every coefficient moves down one place, and those of even powers of x vanish, since 2 is 0.
    #[tactic(auto, using(crate::proofs::Derivatives::word_derivative))]
    fn derivative(&self, a: BitPoly) -> BitPoly {
        BitPoly {
            word: (a.word >> 1) & 0x5555_5555,
        }
    }

    // By 0 it is the dividend.
    fn remainder(&self, a: BitPoly, b: BitPoly) -> BitPoly {
        quotient_and_remainder(a.word, b.word).1
    }

    #[tactic(auto, using(crate::proofs::Decisions::decides_zero))]
    fn is_zero(&self, a: BitPoly) -> bool {
        a.word == 0
    }

    #[tactic(auto, using(crate::proofs::Decisions::decides_unit))]
    fn is_unit(&self, a: BitPoly) -> bool {
        a.word == 1
    }
}
