// The chain of divisions of Euclid's extended algorithm.
ghost use Rattle.std.specs.Prelude.{◌<◌};
ghost use Rattle.algebra.specs.Weight.{weight};
ghost use Rattle.domains.specs.Chain.{ChainLaws, Chained, Dividing, Found, Open};
ghost use Rattle.domains.specs.View.{element_of};

use super::domain::Domain;

// Two neighbours of the chain for a value a modulo m, each with the cofactor by which it is a multiple of a modulo m.
#[derive(Clone, Copy)]
pub(crate) struct Link<V> {
    last: V,
    last_cofactor: V,
    next: V,
    next_cofactor: V,
}

// A greatest common divisor of a and m, and its cofactor; a is not 0.
pub(crate) fn descend<D: Domain>(d: &D, a: D::Value, m: D::Modulus) -> (D::Value, D::Value)
    requires { Dividing (D.view d.now) m a }
    ensures { Found (D.view d.now) m a result.0 result.1 }
{
    chain_laws(d, a, m);
    let mut link = first_link(d, a, m);
    while !d.is_zero(link.next) {
        link = next_link(d, a, m, link);
    }
    (link.last, link.last_cofactor)
}

// The first division, of m by a. The cofactor 0 is a less itself, and 1 is the unit that comes with the normal multiple
// of 0.
fn first_link<D: Domain>(d: &D, a: D::Value, m: D::Modulus) -> Link<D::Value>
    requires { Dividing (D.view d.now) m a }
    ensures { Chained (D.view d.now) m a result }
{
    chain_laws(d, a, m);
    let zero = d.subtract(a, a, m);
    let (_, one) = d.normalize(zero);
    let (quotient, rest) = d.divide_modulus(m, a);
    Link {
        last: a,
        last_cofactor: one,
        next: rest,
        next_cofactor: d.subtract(zero, quotient, m),
    }
}

// A further division, of the last neighbour by the next.
fn next_link<D: Domain>(d: &D, a: D::Value, m: D::Modulus, link: Link<D::Value>) -> Link<D::Value>
    requires { Open (D.view d.now) m a link }
    ensures chained { Chained (D.view d.now) m a result }
    ensures falls { weight (D.view d.now).meaning.euclidean (element_of (D.view d.now) result.next) < weight (D.view d.now).meaning.euclidean (element_of (D.view d.now) link.next) }
{
    chain_laws(d, a, m);
    let (quotient, rest) = d.divide(link.last, link.next);
    let product = d.multiply(quotient, link.next_cofactor, m);
    Link {
        last: link.next,
        last_cofactor: link.next_cofactor,
        next: rest,
        next_cofactor: d.subtract(link.last_cofactor, product, m),
    }
}

// What the laws of a domain say of the chain for a modulo m. It does nothing: it is called for what it ensures.
fn chain_laws<D: Domain>(d: &D, a: D::Value, m: D::Modulus)
    ensures { ChainLaws (D.view d.now) m a }
{}
