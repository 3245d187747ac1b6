// Whether a number is squarefree, with about as many divisions as its cube root.
ghost use Rattle.std.specs.Prelude.{◌^◌, ◌<◌, MatchOption};
ghost use Rattle.domains.specs.Answers.{Decides};
ghost use Rattle.integers.specs.Squarefree.{DividesTwice, IsSquare, Left, NoSquareDivides};

// The first number whose cube is not below 2^31.
const CUBE_ROOT_LIMIT: u32 = 1291;

// Divides out the factors up to the cube root. What is left is then 1, a prime, a product of two different primes or the
// square of a prime, so it only remains to see whether it is a square.
pub(crate) fn no_square_divides(n: u32) -> bool
    requires { (0 < n) × (n < 2 ^ 31) }
    ensures { Decides result (NoSquareDivides n) }
{
    let mut rest = n;
    for d in 2..CUBE_ROOT_LIMIT {
        if d * d * d > rest {
            break;
        }
        match divide_out(rest, d) {
            Some(left) => rest = left,
            None => return false,
        }
    }
    !is_square(rest)
}

// What is left of n without its factor d, or none where d divides n twice.
fn divide_out(n: u32, d: u32) -> Option<u32>
    requires { 0 < d }
    ensures { MatchOption result (DividesTwice d n) (λ left. Left d n left) }
{
    if n % d != 0 {
        return Some(n);
    }
    let left = n / d;
    (left % d != 0).then_some(left)
}

// Whether n is the square of a number from 2 on.
fn is_square(n: u32) -> bool
    ensures { Decides result (IsSquare n) }
{
    let root = n.isqrt();
    root >= 2 && root * root == n
}
