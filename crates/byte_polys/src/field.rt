// The domain: the number p of elements of its field.
ghost use Rattle.std.specs.Prelude.{◌≡◌, ◌≤◌, true, ◌==◌, ◌&&◌};
ghost use Rattle.byte_polys.specs.Listed.{listed};

use crate::value::BytePoly;

#[derive(Clone, Copy)]
pub struct BytePolys {
    pub(crate) p: u8,
    ghost prime: { listed p ≡ true },
    ghost low: { 3 ≤ p },
    ghost high: { p ≤ 251 },
}

impl BytePolys {
    // Whether both values are the domain's own.
    pub(crate) fn owns(self, a: BytePoly, b: BytePoly) -> bool
        ensures { result ≡ (a.p == self.p && b.p == self.p) }
    {
        a.p == self.p && b.p == self.p
    }
}
