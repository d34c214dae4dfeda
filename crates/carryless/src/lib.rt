// Products without carry, of polynomials over bits, from products of integers with holes, as in BearSSL's `ghash_ctmul.c`: no table is
// looked up, and no path is taken by a bit.
//
// Of a word of 32 bits every fourth bit is taken. In a product of two such words at most eight ones meet at a place, and a place has four
// bits: nothing is carried into the next, and the lowest bit of each four is the coefficient. Sixteen of these make a product of 32 by 32
// bits, and nine of those one of 128 by 128 (Karatsuba, twice).

#![tactic(auto)]

pub mod many;

ghost use Rattle.std.specs.Prelude.{◌≡◌, ◌*◌, ◌^◌, ◌<◌, get_or};
ghost use Rattle.std.specs.Int.Bits.{bit_and};
ghost use Rattle.block.specs.Wide.{value};
ghost use Rattle.block.specs.Xor.{◌⊕◌};
ghost use Rattle.carryless.specs.Carryless.{clmul, joining, joining128};
ghost use Rattle.carryless.specs.Product.{product_value};
ghost use Rattle.carryless.specs.Lanes.{Each};
ghost use Rattle.carryless.specs.Lent.{quarters, PartsOf, words64, words128};

use block::U128;

// A number of 256 bits in four words, w3 the highest.
#[derive(Clone, Copy)]
pub struct Product {
    pub w3: u64,
    pub w2: u64,
    pub w1: u64,
    pub w0: u64,
}

// The three numbers of 32 bits whose products make up one of 64 bits: the high half, the low half and their sum.
pub(crate) fn words_of_half(x: u64) -> [u32; 3]
    ensures { result ≡ words64 x }
{
    let high = (x >> 32) as u32;
    let low = (x % 0x1_0000_0000) as u32;
    [high, low, low ^ high]
}

// The nine whose products make up one of 128 bits: those of the high half, of the low half and of their sum.
fn words_of(x: U128) -> [u32; 9]
    ensures { (result ≡ words128 x) × (x.high < 2 ^ 64) × (x.low < 2 ^ 64) }
{
    let [a, b, c] = words_of_half(x.high);
    let [d, e, f] = words_of_half(x.low);
    let [g, h, i] = words_of_half(x.low ^ x.high);
    [a, b, c, d, e, f, g, h, i]
}

// The four parts of a word, of every fourth bit each.
fn quarters(y: u32) -> [u32; 4]
    ensures { result ≡ quarters y }
{
    [
        y & 0x1111_1111,
        y & 0x2222_2222,
        y & 0x4444_4444,
        y & 0x8888_8888,
    ]
}

// A number as a product takes it for its second factor: beside it stand the parts of its nine words, which are made once where it stays
// the same. That they are its parts is a `requires` and no invariant, since public functions take it: `clmul128`, `times` and `multiply`.
#[derive(Clone, Copy)]
pub struct Factor {
    pub number: U128,
    pub parts: [[u32; 4]; 9],
}

// The number y with its parts.
pub fn parts(y: U128) -> Factor
    ensures { PartsOf result × (result.number ≡ y) }
{
    Factor {
        number: y,
        parts: words_of(y).map(quarters),
    }
}

// The sum of the products of x's four parts by p, q, r and s. What is multiplied is masked as 32 bits and widened then, which is how the
// back end sees that products of 32 by 32 bits are enough.
fn diagonal(x: u32, p: u32, q: u32, r: u32, s: u32) -> u64
    ensures { result ≡ bit_and x 0x1111_1111 * p ⊕ bit_and x 0x2222_2222 * q ⊕ bit_and x 0x4444_4444 * r ⊕ bit_and x 0x8888_8888 * s }
{
    u64::from(x & 0x1111_1111) * u64::from(p)
        ^ u64::from(x & 0x2222_2222) * u64::from(q)
        ^ u64::from(x & 0x4444_4444) * u64::from(r)
        ^ u64::from(x & 0x8888_8888) * u64::from(s)
}

// The product of two numbers of 32 bits. It is y's parts that are used.
pub(crate) fn clmul32(x: u32, y: u32, parts: [u32; 4]) -> u64
    requires { parts ≡ quarters y }
    ensures { result ≡ clmul 32 x y }
{
    let [p, q, r, s] = parts;
    let z0 = diagonal(x, p, s, r, q);
    let z1 = diagonal(x, q, p, s, r);
    let z2 = diagonal(x, r, q, p, s);
    let z3 = diagonal(x, s, r, q, p);
    z0 & 0x1111_1111_1111_1111
        ^ z1 & 0x2222_2222_2222_2222
        ^ z2 & 0x4444_4444_4444_4444
        ^ z3 & 0x8888_8888_8888_8888
}

// Three products of halves of 32 bits, put together (Karatsuba): of the high halves, of the low ones, and of their sums.
pub(crate) fn joined(high: u64, low: u64, both: u64) -> U128
    ensures { value result ≡ joining high low both }
{
    let middle = both ^ low ^ high;
    U128 {
        high: high ^ middle >> 32,
        low: low ^ middle << 32,
    }
}

// The same for halves of 64 bits.
pub fn joined128(high: U128, low: U128, both: U128) -> Product
    ensures { (product_value result ≡ joining128 (value high) (value low) (value both)) × (result.w3 ≡ high.high) }
{
    let middle = both ^ low ^ high;
    Product {
        w3: high.high,
        w2: high.low ^ middle.high,
        w1: low.high ^ middle.low,
        w0: low.low,
    }
}

// The products of x's nine words by y's. Of eight of them the back end makes vectors; nine it would leave one by one.
fn word_products(x: U128, y: &Factor) -> [u64; 9]
    requires { PartsOf y.now }
    ensures products { Each (λ k. clmul 32 (get_or (words128 x) k 0) (get_or (words128 y.now.number) k 0)) 9 result }
    ensures small { (x.low < 2 ^ 64) × (y.now.number.high < 2 ^ 64) × (y.now.number.low < 2 ^ 64) }
{
    let a = words_of(x);
    let b = words_of(y.number);
    let mut z = [0u64; 9];
    for k in 0..8 {
        z[k] = clmul32(a[k], b[k], y.parts[k]);
    }
    z[8] = clmul32(a[8], b[8], y.parts[8]);
    z
}

// The product of two numbers of 128 bits, from nine of 32. It has 255 bits.
pub fn clmul128(x: U128, y: &Factor) -> Product
    requires { PartsOf y.now }
    ensures product { product_value result ≡ clmul 128 (value x) (value y.now.number) }
    ensures top { result.w3 < 2 ^ 63 }
{
    let z = word_products(x, y);
    joined128(
        joined(z[0], z[1], z[2]),
        joined(z[3], z[4], z[5]),
        joined(z[6], z[7], z[8]),
    )
}

// The square of a number of 32 bits: the products of two different parts cancel.
fn square32(x: u32) -> u64
    ensures { result ≡ clmul 32 x x }
{
    let p = u64::from(x & 0x1111_1111);
    let q = u64::from(x & 0x2222_2222);
    let r = u64::from(x & 0x4444_4444);
    let s = u64::from(x & 0x8888_8888);
    (p * p ^ r * r) & 0x1111_1111_1111_1111 ^ (q * q ^ s * s) & 0x4444_4444_4444_4444
}

// The square of a number of 128 bits: the products of two different words cancel.
pub fn square128(x: U128) -> Product
    ensures product { product_value result ≡ clmul 128 (value x) (value x) }
    ensures top { result.w3 < 2 ^ 63 }
{
    let [a, b, _] = words_of_half(x.high);
    let [c, d, _] = words_of_half(x.low);
    Product {
        w3: square32(a),
        w2: square32(b),
        w1: square32(c),
        w0: square32(d),
    }
}
