// Starting from words: making a modulus, or saying why it is refused, and inverting modulo it.
ghost use Rattle.std.specs.Prelude.{MatchResult};
ghost use Rattle.domains.specs.OpeningLaws.{InvertedWord, OpeningLaws};
ghost use Rattle.domains.specs.Refusals.{ModulusRefusal};
ghost use Rattle.domains.specs.View.{IsModulus};

use super::domain::Domain;
use super::gcd::{Answer, euclid};
use super::refusal::{Reason, Refusal};

// The modulus of a word, or the first reason against it: not legal, then not squarefree.
pub fn modulus_or_refusal<D: Domain>(d: &D, w: u64) -> Result<D::Modulus, Refusal>
    ensures { MatchResult result (IsModulus (D.view d.now) w) (ModulusRefusal (D.view d.now).meaning w) }
{
    d.modulus(w).ok_or_else(|| {
        if d.is_legal(w) {
            Reason::RepeatedFactor.into()
        } else {
            Reason::IllegalModulus.into()
        }
    })
}

// Euclid's answer for the element of the word w modulo f, or why f is no modulus.
pub fn invert_word<D: Domain>(d: &D, w: u64, f: u64) -> Result<Answer<D::Value>, Refusal>
    ensures { MatchResult result (InvertedWord (D.view d.now) w f) (ModulusRefusal (D.view d.now).meaning f) }
{
    opening_laws(d, w, f);
    let m = modulus_or_refusal(d, f)?;
    Ok(euclid(d, d.residue(w, m), m))
}

// What the laws of a domain say of inverting w modulo f. It does nothing: it is called for what it ensures.
fn opening_laws<D: Domain>(d: &D, w: u64, f: u64)
    ensures { OpeningLaws (D.view d.now) w f }
{}
