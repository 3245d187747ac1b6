// Whether a polynomial is squarefree: over a perfect field that is so exactly when it is coprime to its derivative.
ghost use Rattle.algebra.specs.Divisibility.{Coprime, Squarefree};
ghost use Rattle.domains.specs.Answers.{Decides};
ghost use Rattle.polynomials.proofs.Ring.{polynomial_ring};

use crate::interface::Polynomials;

// Whether no square of a non-unit divides a.
pub fn is_squarefree<P: Polynomials>(ring: &P, a: P::Polynomial) -> bool
    ensures { Decides result (Squarefree (polynomial_ring (P.scalars ring.now).field) (P.stands_for ring.now a)) }
{
    are_coprime(ring, a, ring.derivative(a))
}

// Whether only units divide both a and b, by Euclid's chain of divisions.
#[tactic(auto, using(crate::proofs::Chain::next_stage, crate::proofs::Chain::last_stage))]
fn are_coprime<P: Polynomials>(ring: &P, a: P::Polynomial, b: P::Polynomial) -> bool
    ensures { Decides result (Coprime (polynomial_ring (P.scalars ring.now).field) (P.stands_for ring.now a) (P.stands_for ring.now b)) }
{
    let mut last = a;
    let mut next = b;
    while !ring.is_zero(next) {
        (last, next) = (next, ring.remainder(last, next));
    }
    ring.is_unit(last)
}
