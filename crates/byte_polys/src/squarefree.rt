// The polynomials over GF(p), as far as it takes to see whether one is squarefree. A value of another p stands for 0.
ghost use Rattle.std.specs.Prelude.{◌≡◌, true, ◌==◌};
ghost use Rattle.byte_polys.specs.ByteField.{byte_polys, byte_scalars, poly, polynomial_of};

use crate::field::BytePolys;
use crate::value::BytePoly;
use polynomial_domains::Polynomials;

impl BytePolys {
    // The value itself, if it is the domain's own, else 0.
    fn own(self, a: BytePoly) -> BytePoly
        ensures p { result.p ≡ self.p }
        ensures value { polynomial_of self.p self.prime true result.coefficients ≡ polynomial_of self.p self.prime (a.p == self.p) a.coefficients }
    {
        if a.p == self.p { a } else { self.zero() }
    }
}

impl Polynomials for BytePolys {
    type Polynomial = BytePoly;

    ghost scalars = { λ d. byte_scalars d.p d.prime };

    ghost stands_for = { λ d a. polynomial_of d.p d.prime (a.p == d.p) a.coefficients };

    fn derivative(&self, a: BytePoly) -> BytePoly {
        let a = self.own(a);
        let coefficients = self.derivative_of(&a.coefficients);
        BytePoly {
            coefficients,
            p: self.p,
        }
    }

    // By 0 it is the dividend.
    fn remainder(&self, a: BytePoly, b: BytePoly) -> BytePoly {
        self.quotient_and_remainder(self.own(a), self.own(b)).1
    }

    fn is_zero(&self, a: BytePoly) -> bool {
        self.vanishes(self.own(a))
    }

    fn is_unit(&self, a: BytePoly) -> bool {
        match self.own(a).degree() {
            Some(n) => n == 0,
            None => false,
        }
    }
}
