// The domains by their names.
ghost use Rattle.std.specs.Prelude.{◌≡◌, true, false, MatchResult};
ghost use Rattle.byte_polys.specs.Listed.{listed};
ghost use Rattle.domains.specs.declared.refusal.Reason.TheVariants.{UnlistedPrime};

use byte_polys::BytePolys;
use domains::{Reason, Refusal};
use wording::{Complaint, decimal};

#[derive(Clone, Copy)]
pub(crate) enum DomainName {
    Integers,
    BitPolys,
    // Over GF(p), for this p.
    BytePolys(u64),
}

// The domain that a word names: 1, 2, or 3/P with a number P.
impl<'a> TryFrom<&'a str> for DomainName {
    type Error = Complaint<'a>;

    fn try_from(word: &'a str) -> Result<DomainName, Complaint<'a>> {
        match word.as_bytes() {
            [b'1'] => Ok(DomainName::Integers),
            [b'2'] => Ok(DomainName::BitPolys),
            [b'3', b'/', p @ ..] => decimal(p)
                .map(DomainName::BytePolys)
                .map_err(|_| Complaint::NoDomain(word)),
            _ => Err(Complaint::NoDomain(word)),
        }
    }
}

// The domain over GF(p), for a listed p.
pub(crate) fn byte_polys_over(p: u64) -> Result<BytePolys, Refusal>
    ensures { MatchResult result (λ d. (d.p ≡ p) × (listed p ≡ true)) (λ e. (e.reason ≡ UnlistedPrime) × (e.place ≡ 0) × (listed p ≡ false)) }
{
    match u8::try_from(p) {
        Ok(p) => BytePolys::new(p),
        Err(_) => Err(Reason::UnlistedPrime.into()),
    }
}
