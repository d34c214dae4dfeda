// Up to sixteen elements of the field times one, side by side. As in `carryless::many`, every step is one loop over n, and n is a number of
// which each contract asks that it is at most 16.
ghost use Rattle.std.specs.Prelude.{◌≡◌, ℕ, ◌^◌, ◌<◌, ◌≤◌, get_or};
ghost use Rattle.block.specs.Wide.{value};
ghost use Rattle.block.specs.Xor.{◌⊕◌};
ghost use Rattle.carryless.specs.Carryless.{joining128};
ghost use Rattle.carryless.specs.Lanes.{Each, lane, Both};
ghost use Rattle.carryless.specs.Lent.{PartsOf};
ghost use Rattle.field.specs.Field.{times_xs, gmul};

use crate::reduce;
use block::U128;
use carryless::Factor;
use carryless::many::{Numbers, products64};

// Of each of n numbers the sum of its halves.
fn sums(x: &Numbers, n: usize) -> [u64; 16]
    requires { n ≤ 16 }
    ensures sums { Each (λ g. get_or x.now.low g 0 ⊕ get_or x.now.high g 0) n result }
    ensures small { (g : ℕ) → g < n → get_or x.now.low g 0 < 2 ^ 64 }
{
    let mut r = [0u64; 16];
    for g in 0..n {
        r[g] = x.low[g] ^ x.high[g];
    }
    r
}

// The element of three products of halves: h of the high halves, l of the low ones, and b of their sums.
fn reduced(h: U128, l: U128, b: U128) -> U128
    requires { value h < 2 ^ 127 }
    ensures { value result ≡ times_xs 127 (joining128 (value h) (value l) (value b)) }
{
    reduce(carryless::joined128(h, l, b))
}

// Each of n elements times y.
pub fn multiply(y: &Factor, n: usize, x: &mut Numbers)
    requires { (n ≤ 16) × PartsOf y.now }
    ensures { Both (λ g. gmul (lane x.old g) (value y.now.number)) n x.new }
{
    let s = sums(x, n);
    let mut high = Numbers::ZEROS;
    let mut low = Numbers::ZEROS;
    let mut both = Numbers::ZEROS;
    let U128 { high: c, low: d } = y.number;
    products64(&x.high, c, &y.parts[0..3], n, &mut high);
    products64(&x.low, d, &y.parts[3..6], n, &mut low);
    products64(&s, d ^ c, &y.parts[6..9], n, &mut both);
    for g in 0..n {
        x.set(g, reduced(high.get(g), low.get(g), both.get(g)));
    }
}
