// Inverses modulo p.
ghost use Rattle.std.specs.Prelude.{◌≡◌, ◌*◌, ◌%◌, ◌<◌};

use crate::field::BytePolys;

impl BytePolys {
    // The inverse of a modulo p. What is left is always `factor` times a modulo p: p is q times it and a remainder, so
    // the remainder is −q times it. As p is prime, no remainder is 0 before 1 is left.
    pub(crate) fn inverse(self, a: u8) -> u8
        requires some { 0 < a }
        requires below { a < self.p }
        ensures below { result < self.p }
        ensures product { (a * result) % self.p ≡ 1 }
    {
        let p = self.p as u16;
        let mut left = a as u16;
        let mut factor = 1u16;
        while left > 1 {
            factor = factor * (p - p / left) % p;
            left = p % left;
        }
        factor as u8
    }
}
