// Polynomials over a field, as far as it takes to see whether one is squarefree.
ghost use Rattle.std.specs.Prelude.{◌≡◌};
ghost use Rattle.algebra.specs.Divisibility.{IsUnit};
ghost use Rattle.domains.specs.Answers.{Decides};
ghost use Rattle.polynomials.specs.Polynomial.{Polynomial, derivative as derivative_of, zero_polynomial};
ghost use Rattle.polynomials.proofs.Ring.{polynomial_ring};
ghost use Rattle.polynomial_domains.specs.PerfectField.{IsRemainder, PerfectField};

pub trait Polynomials {
    type Polynomial: Copy;

    // The field of the coefficients, a perfect one.
    ghost scalars: { Self → PerfectField };

    // The polynomial that a value stands for.
    ghost stands_for: { (s : Self) → Self.Polynomial → Polynomial (scalars s).field };

    // The derivative.
    fn derivative(&self, a: Self::Polynomial) -> Self::Polynomial
        ensures { stands_for self.now result ≡ derivative_of (scalars self.now).field (stands_for self.now a) };

    // The remainder of a by b; by 0 it is a.
    fn remainder(&self, a: Self::Polynomial, b: Self::Polynomial) -> Self::Polynomial
        ensures { IsRemainder (scalars self.now) (stands_for self.now a) (stands_for self.now b) (stands_for self.now result) };

    // Whether a polynomial is 0.
    fn is_zero(&self, a: Self::Polynomial) -> bool
        ensures { Decides result (stands_for self.now a ≡ zero_polynomial (scalars self.now).field) };

    // Whether a polynomial is a unit.
    fn is_unit(&self, a: Self::Polynomial) -> bool
        ensures { Decides result (IsUnit (polynomial_ring (scalars self.now).field) (stands_for self.now a)) };
}
