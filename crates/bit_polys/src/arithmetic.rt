// Calculation with values and moduli.
ghost use Rattle.std.specs.Prelude.{◌≡◌};
ghost use Rattle.domains.specs.Answers.{Divided, Normalized, difference as difference-of, sum as sum_of};
ghost use Rattle.domains.specs.Meaning.{residue};
ghost use Rattle.bit_polys.specs.BitPolys.{bit_polys, polynomial_of};

use crate::division::long_division;
use crate::value::{BitPoly, BitPolyModulus};

// The remainder of w modulo m.
pub(crate) fn reduce(w: u64, m: BitPolyModulus) -> BitPoly
    ensures { result.word ≡ residue bit_polys (polynomial_of m.word) (polynomial_of w) }
{
    let (_, remainder) = long_division(w, m.word);
    BitPoly { word: remainder }
}

// The sum of two values.
#[tactic(auto, using(crate::specs::Words::xor_adds))]
pub(crate) fn sum(a: BitPoly, b: BitPoly) -> u64
    ensures { polynomial_of result ≡ sum_of bit_polys a.word b.word }
{
    u64::from(a.word ^ b.word)
}

// The difference of two values: their sum, since 2 is 0.
#[tactic(auto, using(crate::specs::Words::own_negative))]
pub(crate) fn difference(a: BitPoly, b: BitPoly) -> u64
    ensures { polynomial_of result ≡ difference-of bit_polys a.word b.word }
{
    sum(a, b)
}

// Quotient and remainder; by 0 they are 0 and the dividend.
#[tactic(auto, using(crate::specs::Words::zero_stands, crate::specs::Words::zero_word))]
pub(crate) fn quotient_and_remainder(a: u32, b: u32) -> (BitPoly, BitPoly)
    ensures { Divided bit_polys a b result.0.word result.1.word }
{
    if b == 0 {
        return (BitPoly { word: 0 }, BitPoly { word: a });
    }
    let (quotient, remainder) = long_division(u64::from(a), b);
    let quotient = BitPoly {
        word: quotient as u32,
    };
    let remainder = BitPoly { word: remainder };
    (quotient, remainder)
}

// The normal multiple and the unit used. Every polynomial but 0 is monic, so it is its own normal multiple, by 1.
pub(crate) fn normal_multiple(a: BitPoly) -> (BitPoly, BitPoly)
    ensures { Normalized bit_polys a.word result.0.word result.1.word }
{
    (a, BitPoly { word: 1 })
}
