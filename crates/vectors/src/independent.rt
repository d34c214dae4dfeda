// A second SM4, with its modes and its hash, that shares no table and no code with the product's
// crates and is written another way: a block is a number of 128 bits, S-box, L and L' are products of
// polynomials over bits, a round key is made where its round is, and every chain is one walk. It is here
// to be compared with, so it is plain, and nothing is proved of it but that it is safe.
ghost use Rattle.std.specs.Prelude.{◌<◌, ◌≤◌, length};

use crate::file::{Kind, Vector};
use std::array;

// x^8 + x^7 + x^6 + x^5 + x^4 + x^2 + 1: the field of the S-box.
const FIELD: u64 = 0x1f5;

// x^8 + 1 and x^32 + 1: a product modulo these turns its factors round, as a circulant matrix does.
const BYTE_CIRCLE: u64 = 0x101;

const WORD_CIRCLE: u64 = 0x1_0000_0001;

// What the S-box's byte is multiplied with: L, the rotations by 0, 2, 10, 18 and 24; and L', those by 0, 13 and 23.
const L: u64 = 0x0104_0405;

const L_PRIME: u64 = 0x0080_2001;

// What a key is added to before its first round.
const SYSTEM: u128 = 0xa3b1_bac6_56aa_3350_677d_9197_b270_22dc;

// x^128 = x^7 + x^2 + x + 1: what falls out of the hash's field comes back so, the lowest power first.
const BACK: u128 = 0xe100_0000_0000_0000_0000_0000_0000_0000;

// How often a block of the kind `Million` is encrypted.
const MILLION: u32 = 1_000_000;

// A polynomial of the modulus' degree at most, taken down below it: the sum with the modulus is the
// smaller number where both have that power.
fn reduced(x: u64, modulus: u64) -> u64 {
    x.min(x ^ modulus)
}

// The product of two polynomials over bits modulo a third, all of degree 32 at most.
fn product(a: u64, b: u64, modulus: u64) -> u64 {
    let mut sum = 0;
    let mut moved = a;
    for i in 0..32u32 {
        if b >> i & 1 == 1 {
            sum ^= moved;
        }
        moved = reduced(moved << 1, modulus);
    }
    sum
}

// x to the 254 in the S-box's field, which is 1 / x, and 0 of 0.
fn inverse(x: u64) -> u64 {
    (0..254u32).fold(1, |power, _| product(power, x, FIELD))
}

// The affine map on either side of the inversion.
fn affine(x: u64) -> u64 {
    product(x, 0xcb, BYTE_CIRCLE) ^ 0xd3
}

// What the S-box makes of each byte, times the rotations of a linear map.
fn table(rotations: u64) -> [u32; 256] {
    array::from_fn(|x| {
        let s = affine(inverse(affine(x as u64)));
        (product(rotations, s, WORD_CIRCLE) % 0x1_0000_0000) as u32
    })
}

// T or T' of a word, by its table: its bytes one by one, each turned back to its place.
fn mixed(table: &[u32; 256], x: u32) -> u32 {
    let [a, b, c, d] = x.to_be_bytes();
    table[d as usize]
        ^ table[c as usize].rotate_left(8)
        ^ table[b as usize].rotate_left(16)
        ^ table[a as usize].rotate_left(24)
}

// One round, of a block or of a key.
fn round(table: &[u32; 256], x: [u32; 4], own: u32) -> [u32; 4] {
    let [first, second, third, fourth] = x;
    let changed = first ^ mixed(table, second ^ third ^ fourth ^ own);
    [second, third, fourth, changed]
}

// Round constant i: the multiples of 7, from the one of 4 i on.
fn constant(i: u8) -> u32 {
    let first = i.wrapping_mul(28);
    u32::from_be_bytes([
        first,
        first.wrapping_add(7),
        first.wrapping_add(14),
        first.wrapping_add(21),
    ])
}

// The last word of a block, and all its words.
fn last(x: u128) -> u32 {
    (x % 0x1_0000_0000) as u32
}

fn words(x: u128) -> [u32; 4] {
    [last(x >> 96), last(x >> 64), last(x >> 32), last(x)]
}

// The block of its words.
fn joined(words: [u32; 4]) -> u128 {
    words.iter().fold(0, |x, word| x << 32 | *word as u128)
}

// A block of at most sixteen bytes, with zeros behind them.
fn padded(part: &[u8]) -> u128
    requires { length part.now ≤ 16 }
{
    let mut bytes = [0; 16];
    bytes[..part.len()].copy_from_slice(part);
    u128::from_be_bytes(bytes)
}

// Block i of a text, with zeros past its end.
fn block(s: &[u8], i: usize) -> u128 {
    s.chunks(16).nth(i).map_or(0, |part| padded(part))
}

// A block with another last word.
fn with_last(x: u128, last: u32) -> u128 {
    x >> 32 << 32 | last as u128
}

// The next counter of Gcm: one more in the last four bytes.
fn counted(x: u128) -> u128 {
    with_last(x, last(x).wrapping_add(1))
}

// Whether a text of whole blocks becomes the front of `expected`, where a step gives what a block becomes and the next state.
fn walked<F: Fn(u128, u128) -> (u128, u128)>(
    text: &[u8],
    expected: &[u8],
    first: u128,
    step: F,
) -> bool
    requires { F.IsAlwaysCallable step }
{
    let mut state = first;
    for (i, part) in text.chunks_exact(16).enumerate() {
        let (put, next) = step(state, padded(part));
        if put != block(expected, i) {
            return false;
        }
        state = next;
    }
    text.len() % 16 == 0
}

// A field element times x.
fn times_x(v: u128) -> u128 {
    if v & 1 == 1 { v >> 1 ^ BACK } else { v >> 1 }
}

// The product of two field elements, from the highest power of the first down.
fn times(a: u128, b: u128) -> u128 {
    (0..128u32).fold(0, |sum, i| {
        let moved = times_x(sum);
        if a >> i & 1 == 1 { moved ^ b } else { moved }
    })
}

// The hash goes on over the first `n` bytes of `s`, which are whole blocks or all of it.
fn hashed_on(h: u128, start: u128, s: &[u8], n: usize) -> u128 {
    (0..n.div_ceil(16)).fold(start, |hash, i| times(hash ^ block(s, i), h))
}

// The hash of a label and the first `n` bytes of a text, with the block of their lengths in bits.
fn hashed(h: u128, label: &[u8], text: &[u8], n: usize) -> u128 {
    let labelled = hashed_on(h, 0, label, label.len());
    let all = hashed_on(h, labelled, text, n);
    let lengths = (label.len() as u128 * 8) << 64 | n as u128 * 8;
    times(all ^ lengths, h)
}

// SM4 by two tables of the last byte of a word: the S-box with L, and with L'.
#[derive(Drop)]
pub(crate) struct Sm4 {
    l: [u32; 256],
    l_prime: [u32; 256],
}

impl Sm4 {
    pub(crate) fn new() -> Sm4 {
        Sm4 {
            l: table(L),
            l_prime: table(L_PRIME),
        }
    }

    // One block, the round keys made on the way.
    fn crypt(&self, key: u128, block: u128) -> u128 {
        let mut k = words(key ^ SYSTEM);
        let mut x = words(block);
        for i in 0..32u8 {
            k = round(&self.l_prime, k, constant(i));
            x = round(&self.l, x, k[3]);
        }
        joined([x[3], x[2], x[1], x[0]])
    }

    // Whether the sixteen bytes after the first `n` of a sealed message, whole blocks, are its tag.
    fn tagged(&self, key: u128, j0: u128, label: &[u8], sealed: &[u8], n: usize) -> bool {
        let h = self.crypt(key, 0);
        let tag = hashed(h, label, sealed, n) ^ self.crypt(key, j0);
        tag == block(sealed, n / 16)
    }

    // Whether the published result of a vector is what this gives. Gcm has a nonce of twelve bytes: the counter of the tag is 1,
    // and that of the text's first block 2.
    pub(crate) fn gives(&self, vector: &Vector<'_>) -> bool {
        let Vector {
            text,
            label,
            expected,
            ..
        } = *vector;
        let key = block(vector.key, 0);
        let iv = block(vector.iv, 0);
        match vector.kind {
            Kind::Cfb | Kind::Unknown => walked(text, expected, iv, |state, taken| {
                let put = taken ^ self.crypt(key, state);
                (put, put)
            }),
            Kind::Ofb => walked(text, expected, iv, |state, taken| {
                let pad = self.crypt(key, state);
                (taken ^ pad, pad)
            }),
            Kind::Ctr => walked(text, expected, iv, |state, taken| {
                (taken ^ self.crypt(key, state), state.wrapping_add(1))
            }),
            Kind::Cbc | Kind::Block => walked(text, expected, iv, |state, taken| {
                let put = self.crypt(key, state ^ taken);
                (put, put)
            }),
            Kind::Gcm => {
                let j0 = with_last(iv, 1);
                let step = |state: u128, taken: u128| (
                    taken ^ self.crypt(key, state),
                    counted(state),
                );
                walked(text, expected, counted(j0), step)
                    && self.tagged(key, j0, label, expected, text.len())
            }
            Kind::Million => walked(text, expected, iv, |state, taken| {
                let put = (0..MILLION).fold(taken, |x, _| self.crypt(key, x));
                (put, put)
            }),
            Kind::Hash => hashed(key, label, text, text.len()) == block(expected, 0),
        }
    }
}
