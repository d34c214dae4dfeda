// A batch of counters. They differ by their numbers alone, so their lanes are made by adding these, bit by bit, in place of transposing
// blocks. All eight columns are made, however few are needed: the carries of a whole row then stay in registers, which takes no more
// than a loop over two columns does.
ghost use Rattle.std.specs.Prelude.{◌≡◌, ℕ, ◌+◌, ◌*◌, ◌<◌, ◌≤◌, length, get_or};
ghost use Rattle.block.specs.Blocks.{block_at, cat};
ghost use Rattle.block.specs.Words.{words, unwords};
ghost use Rattle.block.specs.Xor.{xors};
ghost use Rattle.lanes.specs.Bits.{Blank};
ghost use Rattle.cipher.specs.Sm4.{encrypt_block};
ghost use Rattle.counter.specs.Counter.{jumped};
ghost use Rattle.block.specs.Over.{over};
ghost use Rattle.sliced.specs.Lanes.{lane, block_in};
ghost use Rattle.sliced.specs.Counting.{number_at, Kept, WordAdded, RowAdded, Added};

use crate::{Planes, columns_of, masks};
use rows::Batch;
use std::array;

// The number of its block into every lane: a row for each of its nine bits. Block i stands at bit i % 64 of column i / 64, so that the low
// six bits of its number are the same in every column, and the other three in every row.
fn numbers(x: &mut [u64; 256])
    requires { Blank x.old }
    ensures numbered { (e : ℕ) → e < 512 → lane x.new e ≡ number_at e }
    ensures rest { (p : ℕ) → 72 ≤ p → get_or x.new p 0 ≡ 0 }
{
    let low: [u64; 6] = [
        0xaaaa_aaaa_aaaa_aaaa,
        0xcccc_cccc_cccc_cccc,
        0xf0f0_f0f0_f0f0_f0f0,
        0xff00_ff00_ff00_ff00,
        0xffff_0000_ffff_0000,
        0xffff_ffff_0000_0000,
    ];
    for p in 0..48 {
        x[p] = low[p / 8];
    }
    for p in 48..72 {
        x[p] = lanes::spread((p % 8) as u64, p / 8 - 6);
    }
}

// Row i of x.
fn row(x: &[u64; 256], i: usize) -> [u64; 8]
    requires { i < 32 }
    ensures { (q : ℕ) → q < 8 → get_or result q 0 ≡ get_or x.now (8 * i + q) 0 }
{
    array::from_fn(|q| x[8 * i + q])
}

// The bits of a, the carries b and the bit of the mask m, added in every lane: the sums into word p of x, and the carries back.
fn add_at(x: &mut [u64; 256], p: usize, a: u64, b: u64, m: u64) -> u64
    requires { p < 256 }
    ensures { WordAdded p a b m x.old x.new result }
{
    let t = a ^ b;
    x[p] = t ^ m;
    (a & b) ^ (t & m)
}

// The bits of eight words a, the carries y and the bit of the mask m: the sums into row i of x, the carries into y.
fn add_row(x: &mut [u64; 256], a: [u64; 8], y: &mut [u64; 8], m: u64, i: usize)
    requires { i < 32 }
    ensures { RowAdded m i 8 a x.old y.old x.new y.new }
{
    for (q, carry) in y.iter_mut().enumerate() {
        *carry = add_at(x, 8 * i + q, a[q], *carry, m);
    }
}

// The word w, added in every lane to the words of x and the carries y: the sums into x, and the carries back. Only the first n rows of x hold
// anything, and only they are read.
fn add_word(x: &mut [u64; 256], n: usize, y: [u64; 8], w: u32) -> [u64; 8]
    requires { (n ≤ 32) × ((p : ℕ) → 8 * n ≤ p → get_or x.old p 0 ≡ 0) }
    ensures { Added w x.old y x.new result }
{
    let m: [u64; 32] = masks(w, 0);
    let mut carries = y;
    for i in 0..n {
        add_row(x, row(x, i), &mut carries, m[i], i);
    }
    for i in n..32 {
        add_row(x, [0; 8], &mut carries, m[i], i);
    }
    carries
}

// The carries out of the last word: kept where all four words count, else none.
fn keep_carries(wide: bool, y: [u64; 8]) -> [u64; 8]
    ensures { Kept wide y result }
{
    if wide { y } else { [0; 8] }
}

impl Planes {
    // The counters from c on into the lanes.
    fn count(&mut self, wide: bool, c: [u32; 4])
        requires { Blank self.old.x0 × Blank self.old.x1 × Blank self.old.x2 × Blank self.old.x3 }
        ensures { (e : ℕ) → e < 512 → block_in self.new e ≡ words (jumped wide (unwords c) (number_at e)) }
    {
        numbers(&mut self.x3);
        let y3 = add_word(&mut self.x3, 9, [0; 8], c[3]);
        let y2 = add_word(&mut self.x2, 0, keep_carries(wide, y3), c[2]);
        let y1 = add_word(&mut self.x1, 0, y2, c[1]);
        add_word(&mut self.x0, 0, y1, c[0]);
    }
}

// The first m blocks of `with`, xored with the ciphers of as many counters from c on, to the front of `out`. All four words of c count where
// it is wide, else the last.
pub fn encrypt_counters(
    rk: [u32; 32],
    wide: bool,
    c: [u32; 4],
    m: usize,
    with: &[u8],
    out: &mut [u8],
)
    requires { (m ≤ 512) × (16 * m ≤ length «with».now) × (16 * m ≤ length out.old) }
    ensures { out.new ≡ over (cat m (λ i. xors (block_at «with».now i) (encrypt_block rk (jumped wide (unwords c) i)))) out.old }
{
    let mut planes = Planes::new();
    let mut rows = Batch::new();
    planes.count(wide, c);
    planes.rounds_to_rows(rk, columns_of(m), &mut rows);
    rows.store_xored(m, with, out);
}
