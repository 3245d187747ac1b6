// Splitting a modulus by a proper factor, as Euclid finds one.
ghost use Rattle.std.specs.Prelude.{MatchOption};
ghost use Rattle.domains.specs.Meaning.{SquarefreeModulus};
ghost use Rattle.domains.specs.SplitLaws.{Exact, Halved, SplitLaws, Splitting};
ghost use Rattle.domains.specs.View.{IsModulus, shown_word};

use super::domain::Domain;

// The two halves of a modulus.
#[derive(Clone, Copy)]
pub struct Halves<M> {
    pub factor: M,
    pub cofactor: M,
}

// The halves of m by its proper factor g; none where g is no proper factor of m, or one of them is not the domain's own.
pub fn halve<D: Domain>(d: &D, m: D::Modulus, g: D::Value) -> Option<Halves<D::Modulus>>
    ensures { MatchOption result (¬ Splitting (D.view d.now) m g) (Halved (D.view d.now) m g) }
{
    split_laws(d, m, g);
    let quotient = exact_quotient(d, m, g)?;
    let factor = modulus_of(d, g)?;
    let cofactor = modulus_of(d, quotient)?;
    Some(Halves { factor, cofactor })
}

// The modulus with the word of a value, if that is one.
fn modulus_of<D: Domain>(d: &D, a: D::Value) -> Option<D::Modulus>
    ensures { MatchOption result (¬ SquarefreeModulus (D.view d.now).meaning (shown_word (D.view d.now) a)) (IsModulus (D.view d.now) (shown_word (D.view d.now) a)) }
{
    d.modulus(d.word_of(a))
}

// The quotient of m by g, where g divides m.
fn exact_quotient<D: Domain>(d: &D, m: D::Modulus, g: D::Value) -> Option<D::Value>
    ensures { MatchOption result (¬ Splitting (D.view d.now) m g) (Exact (D.view d.now) m g) }
{
    split_laws(d, m, g);
    let (quotient, rest) = d.divide_modulus(m, g);
    if d.is_zero(rest) {
        Some(quotient)
    } else {
        None
    }
}

// What the laws of a domain say of a split of m by g. It does nothing: it is called for what it ensures.
fn split_laws<D: Domain>(d: &D, m: D::Modulus, g: D::Value)
    ensures { SplitLaws (D.view d.now) m g }
{}
