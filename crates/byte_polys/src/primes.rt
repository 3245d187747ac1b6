// The primes that a domain can be made for.
ghost use Rattle.std.specs.Prelude.{◌≡◌, ◌≤◌, true, false, MatchResult};
ghost use Rattle.domains.specs.declared.refusal.Reason.TheVariants.{UnlistedPrime};
ghost use Rattle.byte_polys.specs.Listed.{listed, primes, small_prime};

use crate::field::BytePolys;
use domains::{Reason, Refusal};

// All primes from 3 to 251.
const PRIMES: [u8; 53] = [
    3, 5, 7, 11, 13, 17, 19, 23, 29, 31, 37, 41, 43, 47, 53, 59, 61, 67, 71, 73, 79, 83, 89, 97,
    101, 103, 107, 109, 113, 127, 131, 137, 139, 149, 151, 157, 163, 167, 173, 179, 181, 191, 193,
    197, 199, 211, 223, 227, 229, 233, 239, 241, 251,
];

// The table as the list that contracts speak of.
fn table() -> [u8; 53]
    ensures { result ≡ primes }
{
    PRIMES
}

// Whether p is in the table. That is so exactly when p is a prime from 3 to 251.
fn is_listed(p: u8) -> bool
    ensures listed { result ≡ listed p }
    ensures primes { result ≡ small_prime p }
    ensures range { result ≡ true → (3 ≤ p) × (p ≤ 251) }
{
    table().contains(&p)
}

impl BytePolys {
    // The domain over GF(p). The listed p are the primes from 3 to 251; every other p is refused.
    pub fn new(p: u8) -> Result<BytePolys, Refusal>
        ensures listed { MatchResult result (λ d. (d.p ≡ p) × (listed p ≡ true)) (λ e. (e.reason ≡ UnlistedPrime) × (e.place ≡ 0) × (listed p ≡ false)) }
        ensures primes { MatchResult result (λ _. small_prime p ≡ true) (λ _. small_prime p ≡ false) }
    {
        if is_listed(p) {
            Ok(BytePolys { p })
        } else {
            Err(Reason::UnlistedPrime.into())
        }
    }
}
