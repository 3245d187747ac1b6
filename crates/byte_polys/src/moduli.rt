// Moduli from words.
ghost use Rattle.std.specs.Prelude.{◌≡◌, true, false, MatchOption};
ghost use Rattle.domains.specs.Meaning.{SquarefreeModulus, legal_word};
ghost use Rattle.byte_polys.specs.ByteField.{byte_polys, number};
ghost use Rattle.byte_polys.specs.Steps.{Monic};

use crate::field::BytePolys;
use crate::value::{BytePoly, BytePolyModulus};
use polynomial_domains::is_squarefree;

impl BytePolys {
    // The polynomial of a word that is a legal modulus, and its degree; else none.
    pub(crate) fn legal(self, w: u64) -> Option<(BytePoly, usize)>
        ensures { MatchOption result (legal_word (byte_polys self.p self.prime) w ≡ false) (λ x. (x.0.p ≡ self.p) × (number x.0.coefficients ≡ w) × Monic x.0.coefficients x.1 × (legal_word (byte_polys self.p self.prime) w ≡ true)) }
    {
        let a = self.canonical(w)?;
        Some((a, a.monic_degree()?))
    }

    // The modulus of a word that is a legal modulus and squarefree; else none.
    pub(crate) fn modulus_of(self, w: u64) -> Option<BytePolyModulus>
        ensures { MatchOption result (¬ SquarefreeModulus (byte_polys self.p self.prime) w) (λ m. (m.p ≡ self.p) × (number m.coefficients ≡ w) × SquarefreeModulus (byte_polys self.p self.prime) w) }
    {
        let (a, degree) = self.legal(w)?;
        if !is_squarefree(&self, a) {
            return None;
        }
        let coefficients = a.coefficients;
        Some(BytePolyModulus {
            coefficients,
            p: self.p,
            degree,
        })
    }
}
