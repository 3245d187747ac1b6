// Calculation with the words of values and moduli.
ghost use Rattle.std.specs.Prelude.{◌≡◌, ◌%◌, ◌^◌, ◌<◌, pos, ◌-ℤ◌};
ghost use Rattle.domains.specs.Answers.{Divided, Normalized};
ghost use Rattle.integers.specs.Integers.{integers, wrapped};

use crate::value::{Integer, IntegerModulus};

// The remainder of n modulo m.
pub(crate) fn reduce(n: u64, m: IntegerModulus) -> Integer
    ensures { result.word ≡ n % m.word }
{
    Integer {
        word: (n % u64::from(m.word)) as u32,
    }
}

// The remainder of a − b modulo m. In place of taking b away, what b lacks to a multiple of m is added, so that nothing
// is negative.
#[tactic(auto, using(crate::specs::Remainders::wrapped_difference))]
pub(crate) fn reduce_difference(a: Integer, b: Integer, m: IntegerModulus) -> Integer
    ensures { result.word ≡ wrapped m.word (pos a.word -ℤ pos b.word) }
{
    reduce(u64::from(a.word) + u64::from(m.word - b.word % m.word), m)
}

// Quotient and remainder; by 0 they are 0 and the dividend.
pub(crate) fn quotient_and_remainder(a: u32, b: u32) -> (Integer, Integer)
    requires { a < 2 ^ 31 }
    ensures { Divided integers a b result.0.word result.1.word }
{
    if b == 0 {
        (Integer { word: 0 }, Integer { word: a })
    } else {
        (Integer { word: a / b }, Integer { word: a % b })
    }
}

// The normal multiple and the unit used. A value is 0 or positive, so it is its own normal multiple, by 1.
pub(crate) fn normal_multiple(a: Integer) -> (Integer, Integer)
    ensures { Normalized integers a.word result.0.word result.1.word }
{
    (a, Integer { word: 1 })
}
