// Euclid's algorithm, one text for every domain.
ghost use Rattle.std.specs.Prelude.{MatchOption, Some};
ghost use Rattle.domains.specs.EuclidLaws.{Answered, Concluding, EuclidLaws, Reduced, Reducing};
ghost use Rattle.domains.specs.Lines.{answer_line};
ghost use Rattle.domains.specs.declared.gcd.Answer.TheVariants.{Zero};

use super::chain::descend;
use super::domain::Domain;
use std::fmt;

// A proper factor of the modulus, Euclid's fault: what was to be inverted is neither 0 nor invertible.
#[derive(Clone, Copy, PartialEq, Eq, Debug)]
pub struct Factor<V> {
    // The normal greatest common divisor of value and modulus.
    pub divisor: V,
}

// Three answers of one rank, so neither an Option nor a Result.
#[derive(Clone, Copy, PartialEq, Eq, Debug)]
pub enum Answer<V> {
    // The modulus divides the value.
    Zero,
    // The residue whose product with the value has remainder 1.
    Inverse(V),
    Factor(Factor<V>),
}

// An answer in words of the domain, as it is printed.
impl fmt::Display for Answer<u64> {
    ghost output = { λ x. Some (answer_line x) };

    fn fmt<W: fmt::Write>(&self, f: &mut fmt::Formatter<W>) -> fmt::Result {
        match *self {
            Answer::Zero => write!(f, "zero"),
            Answer::Inverse(word) => write!(f, "inverse {word}"),
            Answer::Factor(Factor { divisor }) => write!(f, "factor {divisor}"),
        }
    }
}

// Inverts a modulo m. The answer is the only one that the definition `Answers` admits; a value or modulus that is not
// the domain's own gets Zero.
pub fn euclid<D: Domain>(d: &D, a: D::Value, m: D::Modulus) -> Answer<D::Value>
    ensures { Answered (D.view d.now) m a result }
{
    match nonzero_residue(d, a, m) {
        None => Answer::Zero,
        Some(reduced) => {
            let (divisor, cofactor) = descend(d, reduced, m);
            conclude(d, a, m, divisor, cofactor)
        }
    }
}

// The residue of a value, unless it is 0; what is not the domain's own is 0 here.
fn nonzero_residue<D: Domain>(d: &D, a: D::Value, m: D::Modulus) -> Option<D::Value>
    ensures { MatchOption result (Answered (D.view d.now) m a Zero) (Reducing (D.view d.now) m a) }
{
    euclid_laws(d, a, m);
    let reduced = reduce(d, a, m);
    if d.is_zero(reduced) {
        None
    } else {
        Some(reduced)
    }
}

// The answer by a greatest common divisor and its cofactor, where m does not divide a.
fn conclude<D: Domain>(
    d: &D,
    a: D::Value,
    m: D::Modulus,
    divisor: D::Value,
    cofactor: D::Value,
) -> Answer<D::Value>
    requires { Concluding (D.view d.now) m a divisor cofactor }
    ensures { Answered (D.view d.now) m a result }
{
    euclid_laws(d, a, m);
    let (normal, unit) = d.normalize(divisor);
    // A normal divisor of the modulus is legal exactly when it is no unit.
    if d.is_legal(d.word_of(normal)) {
        Answer::Factor(Factor { divisor: normal })
    } else {
        Answer::Inverse(d.multiply(unit, cofactor, m))
    }
}

// The residue of a value. What is not the domain's own is 0 then.
fn reduce<D: Domain>(d: &D, a: D::Value, m: D::Modulus) -> D::Value
    ensures { Reduced (D.view d.now) m a result }
{
    euclid_laws(d, a, m);
    let zero = d.subtract(a, a, m);
    d.add(a, zero, m)
}

// What the laws of a domain say of the answer for a modulo m. It does nothing: it is called for what it ensures.
fn euclid_laws<D: Domain>(d: &D, a: D::Value, m: D::Modulus)
    ensures { EuclidLaws (D.view d.now) m a }
{}
