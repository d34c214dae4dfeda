// The rounds of up to 64 blocks. Round i changes row i, counted round: what was the first word of a block is then its last. The 64 bytes of
// sixteen words are the 64 lanes of one evaluation of the S-box's gates.
//
// How many blocks and groups are worked on are parameters all the way down, since a loop whose count the back end knows is not vectorized
// here.
ghost use Rattle.std.specs.Prelude.{◌≡◌, List, ℕ, ◌+◌, ◌*◌, ◌^◌, ◌<◌, ◌≤◌, length, get_or};
ghost use Rattle.block.specs.Xor.{◌⊕◌};
ghost use Rattle.cipher.specs.Sm4.{tau, L, T, round_by, turned, encrypt_words};
ghost use Rattle.sixteen.specs.Bytes.{Transposed, Subbed};
ghost use Rattle.sixteen.specs.Blocks.{Each, pair_at, Paired, Halves, row, block, keyed, Changed};

use crate::FewBlocks;
use std::array;

// The bytes of eight words, transposed bit by bit, so that word i has bit i of all 64 bytes: three stages of masked swaps. It is its own
// inverse.
fn transpose(w: [u64; 8]) -> [u64; 8]
    ensures { Transposed w result }
{
    let m1: u64 = 0x5555_5555_5555_5555;
    let m2: u64 = 0x3333_3333_3333_3333;
    let m4: u64 = 0x0f0f_0f0f_0f0f_0f0f;
    let (a0, a1) = lanes::swapped(w[0], w[1], 1, m1);
    let (a2, a3) = lanes::swapped(w[2], w[3], 1, m1);
    let (a4, a5) = lanes::swapped(w[4], w[5], 1, m1);
    let (a6, a7) = lanes::swapped(w[6], w[7], 1, m1);
    let (b0, b2) = lanes::swapped(a0, a2, 2, m2);
    let (b1, b3) = lanes::swapped(a1, a3, 2, m2);
    let (b4, b6) = lanes::swapped(a4, a6, 2, m2);
    let (b5, b7) = lanes::swapped(a5, a7, 2, m2);
    let (c0, c4) = lanes::swapped(b0, b4, 4, m4);
    let (c1, c5) = lanes::swapped(b1, b5, 4, m4);
    let (c2, c6) = lanes::swapped(b2, b6, 4, m4);
    let (c3, c7) = lanes::swapped(b3, b7, 4, m4);
    [c0, c1, c2, c3, c4, c5, c6, c7]
}

// Each byte of eight words by the S-box.
fn sub_bytes(w: [u64; 8]) -> [u64; 8]
    ensures { Subbed w result }
{
    transpose(circuit::sbox(transpose(w)))
}

// Words 2 i and 2 i + 1 as one.
fn pair(t: &[u32; 64], i: usize) -> u64
    requires { i < 32 }
    ensures { (result ≡ pair_at t.now i) × (get_or t.now (2 * i) 0 < 2 ^ 32) }
{
    u64::from(t[2 * i + 1]) << 32 | u64::from(t[2 * i])
}

// The sixteen words of group g as eight.
fn paired(t: &[u32; 64], g: usize) -> [u64; 8]
    requires { g < 4 }
    ensures { Paired t.now g result }
{
    array::from_fn(|i| pair(t, 8 * g + i))
}

// Eight words as the sixteen of group g.
fn put_group(z: [u64; 8], g: usize, s: &mut [u32; 64])
    requires { g < 4 }
    ensures { (f : ℕ → ℕ) → Each f (16 * g) s.old → Halves f g z → Each f (16 * g + 16) s.new }
{
    for (i, x) in z.iter().enumerate() {
        let at = 16 * g + 2 * i;
        s[at] = (x % 0x1_0000_0000) as u32;
        s[at + 1] = (x >> 32) as u32;
    }
}

// Each word of so many groups by tau: its four bytes by the S-box.
fn sub_groups(t: &[u32; 64], s: &mut [u32; 64], groups: usize)
    requires { groups ≤ 4 }
    ensures { Each (λ j. tau (get_or t.now j 0)) (16 * groups) s.new }
{
    for g in 0..groups {
        let z = sub_bytes(paired(t, g));
        put_group(z, g, s);
    }
}

// What goes into the S-boxes of the first n blocks in round i, by the round key k.
fn keyed_words(t: &mut [u32; 64], x: &[u32; 256], i: usize, k: u32, n: usize)
    requires { (n ≤ 64) × (i < 32) }
    ensures { Each (keyed x.now i k) n t.new }
{
    let b = (i + 1) % 4 * 64;
    let c = (i + 2) % 4 * 64;
    let d = (i + 3) % 4 * 64;
    for j in 0..n {
        t[j] = x[b + j] ^ x[c + j] ^ x[d + j] ^ k;
    }
}

// L of n words, added to row i.
fn mix(x: &mut [u32; 256], i: usize, s: &[u32; 64], n: usize)
    requires { n ≤ 64 }
    ensures { Changed (row i) n (λ j. get_or x.old (row i + j) 0 ⊕ L (get_or s.now j 0)) x.old x.new }
{
    let a = i % 4 * 64;
    for j in 0..n {
        x[a + j] ^= cipher::l_trans(s[j]);
    }
}

impl FewBlocks {
    // Round i of the first n blocks, which are in so many groups, by the round key k.
    fn round(&mut self, i: usize, k: u32, n: usize, groups: usize)
        requires { (n ≤ 16 * groups) × (groups ≤ 4) × (i < 32) }
        ensures { (j : ℕ) → j < n → block self.new.x (i + 1) j ≡ round_by T (block self.old.x i j) k }
    {
        keyed_words(&mut self.t, &self.x, i, k, n);
        sub_groups(&self.t, &mut self.s, groups);
        mix(&mut self.x, i, &self.s, n);
    }

    // The first n blocks, encrypted. The words of a block stand turned round then.
    pub(crate) fn all_rounds(&mut self, rk: [u32; 32], n: usize, groups: usize)
        requires { (n ≤ 16 * groups) × (groups ≤ 4) }
        ensures { (j : ℕ) → j < n → turned (block self.new.x 0 j) ≡ encrypt_words rk (block self.old.x 0 j) }
    {
        for (i, k) in rk.iter().enumerate() {
            self.round(i, *k, n, groups);
        }
    }
}
