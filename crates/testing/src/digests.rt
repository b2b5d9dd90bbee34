// Digests of bytes and of entries.
ghost use Rattle.std.specs.Prelude.{◌≡◌, map};
ghost use Rattle.testing.specs.Numbers.{digest_of};

use crate::digits::Digit;

const PRIME: u64 = 1000000007;

// The number that the digits of `high` and then these make in their base, modulo the prime.
#[tactic(auto, using(crate::proofs::DigestLaws::digest_more))]
pub fn digest<D: Digit>(high: u64, digits: &[D]) -> u64
    ensures { result ≡ digest_of D.BASE high (map D.value_of digits.now) }
{
    let mut sum = high % PRIME;
    for digit in digits {
        sum = (sum * D::BASE + digit.wide()) % PRIME;
    }
    sum
}
