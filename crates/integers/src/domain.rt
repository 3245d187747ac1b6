// The domain. Every value and every modulus of its types is its own.
ghost use Rattle.std.specs.Prelude.{true, refl};
ghost use Rattle.domains.specs.Answers.{Decides};
ghost use Rattle.domains.specs.Meaning.{SquarefreeModulus};
ghost use Rattle.integers.specs.Integers.{integers};
ghost use Rattle.integers.specs.Squarefree.{ModulusWord};
ghost use Rattle.integers.specs.Laws;
ghost use Rattle.integers.specs.SquarefreeNumbers.{squarefree_modulus};

use crate::arithmetic::{normal_multiple, quotient_and_remainder, reduce, reduce_difference};
use crate::squarefree::no_square_divides;
use crate::value::{Integer, IntegerModulus};
use domains::Domain;

// The largest legal modulus, 2^31 − 1.
const LARGEST_MODULUS: u64 = 2147483647;

#[derive(Clone, Copy)]
pub struct Integers;

impl Integers {
    // Whether a word is a legal modulus and squarefree: as the domain means it, and as a plain number.
    fn is_modulus(&self, w: u64) -> bool
        ensures meant { Decides result (SquarefreeModulus integers w) }
        ensures plain { Decides result (ModulusWord w) }
    {
        self.is_legal(w) && no_square_divides(w as u32)
    }
}

impl Domain for Integers {
    type Value = Integer;

    type Modulus = IntegerModulus;

    ghost view = { λ _. record { meaning = integers; word = λ a. a.word; modulus_word = λ m. m.word; own = λ _. true; own_modulus = λ _. true } };

    ghost lawful = { λ d. record {
      laws = Laws.lawful;
      spelled = λ a e. refl;
      sound = λ m e. squarefree_modulus m.word (record { large = m.large; small = m.small; free = m.free });
    } };

    ghost one_word = { λ d e a. refl };

    ghost one_modulus_word = { λ d e m. refl };

    fn residue(&self, w: u64, m: IntegerModulus) -> Integer {
        reduce(w, m)
    }

    fn add(&self, a: Integer, b: Integer, m: IntegerModulus) -> Integer {
        reduce(u64::from(a.word) + u64::from(b.word), m)
    }

    fn subtract(&self, a: Integer, b: Integer, m: IntegerModulus) -> Integer {
        reduce_difference(a, b, m)
    }

    fn multiply(&self, a: Integer, b: Integer, m: IntegerModulus) -> Integer {
        reduce(u64::from(a.word) * u64::from(b.word), m)
    }

    fn word_of(&self, a: Integer) -> u64 {
        u64::from(a.word)
    }

    fn word_of_modulus(&self, m: IntegerModulus) -> u64 {
        u64::from(m.word)
    }

    fn is_zero(&self, a: Integer) -> bool {
        a.word == 0
    }

    fn is_legal(&self, w: u64) -> bool {
        (2..=LARGEST_MODULUS).contains(&w)
    }

    fn modulus(&self, w: u64) -> Option<IntegerModulus> {
        if self.is_modulus(w) {
            Some(IntegerModulus { word: w as u32 })
        } else {
            None
        }
    }

    fn divide(&self, a: Integer, b: Integer) -> (Integer, Integer) {
        quotient_and_remainder(a.word, b.word)
    }

    fn divide_modulus(&self, m: IntegerModulus, b: Integer) -> (Integer, Integer) {
        quotient_and_remainder(m.word, b.word)
    }

    fn normalize(&self, a: Integer) -> (Integer, Integer) {
        normal_multiple(a)
    }
}
