// The domain. Every value and every modulus of its types is its own.
ghost use Rattle.std.specs.Prelude.{◌≡◌, true, refl};
ghost use Rattle.domains.specs.Answers.{Decides};
ghost use Rattle.domains.specs.Meaning.{SquarefreeModulus};
ghost use Rattle.bit_polys.specs.BitPolys.{bit_polys, bit_field, bit_digits};
ghost use Rattle.bit_polys.specs.Moduli.{ModulusWord, in_range};
ghost use Rattle.std.proofs.Common.{lit≤};
ghost use Rattle.polynomial_domains.proofs.DomainLaws.{polynomial_domain_laws};
ghost use Rattle.bit_polys.specs.Words.{word_of_polynomial};
ghost use Rattle.bit_polys.specs.ModuliLemmas.{squarefree_modulus};

use crate::arithmetic::{difference, normal_multiple, quotient_and_remainder, reduce, sum};
use crate::product::product;
use crate::value::{BitPoly, BitPolyModulus};
use domains::Domain;
use polynomial_domains::is_squarefree;

// The words of the polynomials of degree 1 to 31.
const SMALLEST_MODULUS: u64 = 2;

const LARGEST_MODULUS: u64 = 0xffff_ffff;

#[derive(Clone, Copy)]
pub struct BitPolys;

impl BitPolys {
    // Whether a word is a legal modulus and squarefree: as the domain means it, and in terms of the word.
    fn is_modulus(&self, w: u64) -> bool
        ensures meant { Decides result (SquarefreeModulus bit_polys w) }
        ensures plain { Decides result (ModulusWord w) }
    {
        is_in_range(w) && is_squarefree(self, BitPoly { word: w as u32 })
    }
}

// Whether a word stands for a polynomial of degree 1 to 31.
fn is_in_range(w: u64) -> bool
    ensures { result ≡ in_range w }
{
    (SMALLEST_MODULUS..=LARGEST_MODULUS).contains(&w)
}

impl Domain for BitPolys {
    type Value = BitPoly;

    type Modulus = BitPolyModulus;

    ghost view = { λ _. record { meaning = bit_polys; word = λ a. a.word; modulus_word = λ m. m.word; own = λ _. true; own_modulus = λ _. true } };

    ghost lawful = { λ d. record {
      laws = polynomial_domain_laws bit_field bit_digits 31 (lit≤ tt);
      spelled = λ a e. word_of_polynomial a.word;
      sound = λ m e. squarefree_modulus m.word (record { large = m.large; small = m.small; free = m.free });
    } };

    ghost one_word = { λ d e a. refl };

    ghost one_modulus_word = { λ d e m. refl };

    fn residue(&self, w: u64, m: BitPolyModulus) -> BitPoly {
        reduce(w, m)
    }

    fn add(&self, a: BitPoly, b: BitPoly, m: BitPolyModulus) -> BitPoly {
        reduce(sum(a, b), m)
    }

    fn subtract(&self, a: BitPoly, b: BitPoly, m: BitPolyModulus) -> BitPoly {
        reduce(difference(a, b), m)
    }

    fn multiply(&self, a: BitPoly, b: BitPoly, m: BitPolyModulus) -> BitPoly {
        reduce(product(a.word, b.word), m)
    }

    fn word_of(&self, a: BitPoly) -> u64 {
        u64::from(a.word)
    }

    fn word_of_modulus(&self, m: BitPolyModulus) -> u64 {
        u64::from(m.word)
    }

    #[tactic(auto, using(crate::specs::Words::zero_stands, crate::specs::Words::zero_only))]
    fn is_zero(&self, a: BitPoly) -> bool {
        a.word == 0
    }

    #[tactic(auto, using(crate::specs::ModuliLemmas::legal_range))]
    fn is_legal(&self, w: u64) -> bool {
        is_in_range(w)
    }

    fn modulus(&self, w: u64) -> Option<BitPolyModulus> {
        if self.is_modulus(w) {
            Some(BitPolyModulus { word: w as u32 })
        } else {
            None
        }
    }

    fn divide(&self, a: BitPoly, b: BitPoly) -> (BitPoly, BitPoly) {
        quotient_and_remainder(a.word, b.word)
    }

    fn divide_modulus(&self, m: BitPolyModulus, b: BitPoly) -> (BitPoly, BitPoly) {
        quotient_and_remainder(m.word, b.word)
    }

    fn normalize(&self, a: BitPoly) -> (BitPoly, BitPoly) {
        normal_multiple(a)
    }
}
