// Euclid's answer as the words that are printed.
ghost use Rattle.std.specs.Prelude.{MatchResult};
ghost use Rattle.domains.specs.Euclid.{Answers, Only, outcome};
ghost use Rattle.domains.specs.Meaning.{SquarefreeModulus};
ghost use Rattle.domains.specs.Refusals.{ModulusRefusal};

use domains::{Answer, Domain, Factor, Refusal, invert_word};

// Inverts the element of a word modulo that of another, or says why that is no modulus.
pub fn invert<D: Domain>(d: &D, w: u64, f: u64) -> Result<Answer<u64>, Refusal>
    ensures { MatchResult result (λ x. SquarefreeModulus (D.view d.now).meaning f × Only (Answers (D.view d.now).meaning ((D.view d.now).meaning.element f) ((D.view d.now).meaning.element w)) (outcome (λ word. word) x)) (ModulusRefusal (D.view d.now).meaning f) }
{
    Ok(match invert_word(d, w, f)? {
        Answer::Zero => Answer::Zero,
        Answer::Inverse(value) => Answer::Inverse(d.word_of(value)),
        Answer::Factor(Factor { divisor }) => Answer::Factor(Factor {
            divisor: d.word_of(divisor),
        }),
    })
}
