// What is asked of any domain, with the answer in words.
use domains::{Answer, Domain, halve, invert_word, modulus_or_refusal};

pub(crate) fn is_zero<D: Domain>(d: &D, w: u64, f: u64) -> bool {
    matches!(invert_word(d, w, f), Ok(Answer::Zero))
}

pub(crate) fn inverse<D: Domain>(d: &D, w: u64, f: u64) -> Option<u64> {
    match invert_word(d, w, f) {
        Ok(Answer::Inverse(value)) => Some(d.word_of(value)),
        _ => None,
    }
}

pub(crate) fn factor<D: Domain>(d: &D, w: u64, f: u64) -> Option<u64> {
    match invert_word(d, w, f) {
        Ok(Answer::Factor(factor)) => Some(d.word_of(factor.divisor)),
        _ => None,
    }
}

// The number of the refusal of a modulus, if it is refused.
pub(crate) fn refusal<D: Domain>(d: &D, f: u64) -> Option<u8> {
    modulus_or_refusal(d, f)
        .err()
        .map(|refusal| refusal.reason.into())
}

// The two halves of f by the residue of a word.
pub(crate) fn halves<D: Domain>(d: &D, f: u64, by: u64) -> Option<(u64, u64)> {
    let m = d.modulus(f)?;
    let halves = halve(d, m, d.residue(by, m))?;
    Some((
        d.word_of_modulus(halves.factor),
        d.word_of_modulus(halves.cofactor),
    ))
}
