// The domain. The values and moduli of all p share their types; those of its own p are its own.
ghost use Rattle.std.specs.Prelude.{◌==◌, refl};
ghost use Rattle.byte_polys.specs.ByteField.{byte_polys, number};
ghost use Rattle.byte_polys.specs.Laws;
ghost use Rattle.std.proofs.lemmas.Bool.{eqb-true};
ghost use Rattle.byte_polys.specs.Bytes.{word_number};
ghost use Rattle.byte_polys.specs.Instance.{modulo};
ghost use Rattle.byte_polys.specs.SamePrime.{below_same, same_prime};
ghost use Rattle.byte_polys.specs.Domain.{NoSquareDivides};
ghost use Rattle.byte_polys.specs.WordsOfModuli.{monic_word, free_squarefree};

use crate::field::BytePolys;
use crate::value::{BytePoly, BytePolyModulus};
use domains::Domain;

impl Domain for BytePolys {
    type Value = BytePoly;

    type Modulus = BytePolyModulus;

    ghost view = { λ d. record {
      meaning = byte_polys d.p d.prime;
      word = λ a. number a.coefficients;
      modulus_word = λ m. number m.coefficients;
      own = λ a. (a.p == d.p);
      own_modulus = λ m. (m.p == d.p);
    } };

    ghost lawful = { unfold byte_polys in λ d. record {
      laws = Laws.lawful d.p d.prime;
      spelled = λ a e. word_number (modulo d.p d.prime) a.coefficients (below_same a.coefficients (eqb-true a.p d.p e) a.below);
      sound = λ m e.
          let same = eqb-true m.p d.p e in
          let below = below_same m.coefficients same m.below in
          record {
            legal = monic_word d.p d.prime m.coefficients below m.degree (record { low = m.low; high = m.high; one = m.one; above = m.above });
            squarefree = free_squarefree d.p d.prime m.coefficients below (same_prime (λ p h. NoSquareDivides p h m.coefficients) m.p d.p m.prime d.prime same m.free);
          };
    } };

    ghost one_word = { λ d e a. refl };

    ghost one_modulus_word = { λ d e m. refl };

    // A modulus of another p is seen before anything is calculated, here and in the next three.
    fn residue(&self, w: u64, m: BytePolyModulus) -> BytePoly {
        if m.p == self.p {
            self.row(self.value(w)).residue(m)
        } else {
            self.zero()
        }
    }

    fn add(&self, a: BytePoly, b: BytePoly, m: BytePolyModulus) -> BytePoly {
        if self.owns(a, b) && m.p == self.p {
            self.sum(a, b).residue(m)
        } else {
            self.zero()
        }
    }

    fn subtract(&self, a: BytePoly, b: BytePoly, m: BytePolyModulus) -> BytePoly {
        if self.owns(a, b) && m.p == self.p {
            self.difference(a, b).residue(m)
        } else {
            self.zero()
        }
    }

    fn multiply(&self, a: BytePoly, b: BytePoly, m: BytePolyModulus) -> BytePoly {
        if self.owns(a, b) && m.p == self.p {
            self.product(a, b).residue(m)
        } else {
            self.zero()
        }
    }

    fn word_of(&self, a: BytePoly) -> u64 {
        if a.p == self.p { a.word() } else { 0 }
    }

    fn word_of_modulus(&self, m: BytePolyModulus) -> u64 {
        if m.p == self.p { m.value().word() } else { 0 }
    }

    fn is_zero(&self, a: BytePoly) -> bool {
        a.p == self.p && self.vanishes(a)
    }

    fn is_legal(&self, w: u64) -> bool {
        self.legal(w).is_some()
    }

    fn modulus(&self, w: u64) -> Option<BytePolyModulus> {
        self.modulus_of(w)
    }

    fn divide(&self, a: BytePoly, b: BytePoly) -> (BytePoly, BytePoly) {
        self.quotient_and_remainder(a, b)
    }

    fn divide_modulus(&self, m: BytePolyModulus, b: BytePoly) -> (BytePoly, BytePoly) {
        self.quotient_and_remainder(m.value(), b)
    }

    fn normalize(&self, a: BytePoly) -> (BytePoly, BytePoly) {
        self.monic_multiple(a)
    }
}
