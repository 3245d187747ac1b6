// Values from words, and which words are legal moduli.
ghost use Rattle.std.specs.Prelude.{◌≡◌, false, ℕ, MatchOption, ◌≢◌};
ghost use Rattle.domains.specs.Answers.{Decides, IsZero, zero_word};
ghost use Rattle.byte_polys.specs.ByteField.{byte_polys, number, poly};
ghost use Rattle.byte_polys.specs.Steps.{Monic};

use crate::field::BytePolys;
use crate::value::BytePoly;

impl BytePolys {
    // The polynomial 0.
    pub(crate) fn zero(self) -> BytePoly
        ensures p { result.p ≡ self.p }
        ensures word { number result.coefficients ≡ zero_word (byte_polys self.p self.prime) }
    {
        BytePoly {
            coefficients: [0; 8],
            p: self.p,
        }
    }

    // Whether a value of the domain's own is 0.
    pub(crate) fn vanishes(self, a: BytePoly) -> bool
        ensures { a.p ≡ self.p → Decides result (IsZero (byte_polys self.p self.prime) (number a.coefficients)) }
    {
        a.word() == 0
    }

    // The polynomial of a word: its bytes are reduced modulo p.
    pub(crate) fn value(self, w: u64) -> BytePoly
        ensures p { result.p ≡ self.p }
        ensures value { poly self.p self.prime result.coefficients ≡ (byte_polys self.p self.prime).element w }
        ensures word { number result.coefficients ≡ (byte_polys self.p self.prime).word ((byte_polys self.p self.prime).element w) }
    {
        self.plus_multiple([0; 8], 1, w.to_le_bytes()).value()
    }

    // The polynomial of a word that is its canonical word, so that no byte had to be reduced; else none.
    pub(crate) fn canonical(self, w: u64) -> Option<BytePoly>
        ensures { MatchOption result ((byte_polys self.p self.prime).word ((byte_polys self.p self.prime).element w) ≢ w) (λ a. (a.p ≡ self.p) × (number a.coefficients ≡ w) × ((byte_polys self.p self.prime).word ((byte_polys self.p self.prime).element w) ≡ w)) }
    {
        let a = self.value(w);
        (a.word() == w).then_some(a)
    }
}

impl BytePoly {
    // The degree of a monic polynomial of degree 1 to 7; none for any other.
    pub(crate) fn monic_degree(self) -> Option<usize>
        ensures { MatchOption result ((n : ℕ) → Monic self.coefficients n → ⊥) (λ n. Monic self.coefficients n) }
    {
        let n = self.degree()?;
        (1 <= n && self.coefficients[n] == 1).then_some(n)
    }
}
