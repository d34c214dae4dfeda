// Products without carry of up to sixteen numbers by one. Every step is one loop over the n numbers, of which the back end makes vectors.
// n is a parameter all the way down, since a loop whose count the back end knows is not vectorized here. That it is at most 16 is asked, and
// no type of its own: each loop would take the type apart, and `products64`, which docs/PROMISES.md names, asks it of a number.
ghost use Rattle.std.specs.Prelude.{◌≡◌, ◌≢◌, ℕ, ◌/◌, ◌%◌, ◌^◌, ◌<◌, ◌≤◌, get_or};
ghost use Rattle.block.specs.Wide.{value};
ghost use Rattle.block.specs.Xor.{◌⊕◌};
ghost use Rattle.carryless.specs.Carryless.{clmul, joining};
ghost use Rattle.carryless.specs.Lanes.{Each, lane, Both};
ghost use Rattle.carryless.specs.Lent.{quarters, Parts64};

use crate::{clmul32, joined, words_of_half};
use block::U128;

// Sixteen numbers of 128 bits. Their halves stand in two arrays, as vectors want them: an array of `U128` would be taken apart into words
// of 64 bits side by side for each of a product's three parts.
#[derive(Clone, Copy)]
pub struct Numbers {
    pub high: [u64; 16],
    pub low: [u64; 16],
}

impl Numbers {
    pub const ZEROS: Numbers = Numbers {
        high: [0; 16],
        low: [0; 16],
    };

    // Number g.
    pub fn get(&self, g: usize) -> U128
        requires { g < 16 }
        ensures { value result ≡ lane self.now g }
    {
        U128 {
            high: self.high[g],
            low: self.low[g],
        }
    }

    // Makes z number g.
    pub fn set(&mut self, g: usize, z: U128)
        requires { g < 16 }
        ensures placed { lane self.new g ≡ value z }
        ensures others { (k : ℕ) → k ≢ g → lane self.new k ≡ lane self.old k }
    {
        self.high[g] = z.high;
        self.low[g] = z.low;
    }
}

// Of each of n words the high half, the low half, and their sum.
fn halves(x: &[u64; 16], n: usize) -> ([u32; 16], [u32; 16], [u32; 16])
    requires { n ≤ 16 }
    ensures high { Each (λ g. get_or x.now g 0 / 2 ^ 32) n result.0 }
    ensures low { Each (λ g. get_or x.now g 0 % 2 ^ 32) n result.1 }
    ensures both { Each (λ g. get_or x.now g 0 % 2 ^ 32 ⊕ get_or x.now g 0 / 2 ^ 32) n result.2 }
{
    let mut high = [0u32; 16];
    let mut low = [0u32; 16];
    let mut both = [0u32; 16];
    for g in 0..n {
        let [a, b, c] = words_of_half(x[g]);
        high[g] = a;
        low[g] = b;
        both[g] = c;
    }
    (high, low, both)
}

// The products of n words by y, whose parts are these.
fn products(x: &[u32; 16], y: u32, parts: [u32; 4], n: usize) -> [u64; 16]
    requires { (n ≤ 16) × (parts ≡ quarters y) }
    ensures { Each (λ g. clmul 32 (get_or x.now g 0) y) n result }
{
    let mut z = [0u64; 16];
    for g in 0..n {
        z[g] = clmul32(x[g], y, parts);
    }
    z
}

// The products of n numbers of 64 bits by y, whose parts are lent as m. z is lent too: handed back it would be copied, for 4 in a hundred
// more instructions of a long hash.
pub fn products64(x: &[u64; 16], y: u64, m: &[[u32; 4]], n: usize, z: &mut Numbers)
    requires { (n ≤ 16) × Parts64 y m.now }
    ensures { Both (λ g. clmul 64 (get_or x.now g 0) y) n z.new }
{
    let (high, low, both) = halves(x, n);
    let [a, b, c] = words_of_half(y);
    let p = products(&high, a, m[0], n);
    let q = products(&low, b, m[1], n);
    let r = products(&both, c, m[2], n);
    for g in 0..n {
        z.set(g, joined(p[g], q[g], r[g]));
    }
}
