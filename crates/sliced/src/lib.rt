// SM4 on up to 512 blocks side by side, bit by bit: word 8 i + j of a plane holds bit i of one word of 64 blocks, those of column j.
// Neither an index nor a branch depends on a block or a key.
//
// The gates of the rounds work on the first n columns alone. n is a parameter all the way down, since a loop whose count the back end knows
// is not vectorized here. That n is at most 8, and a number of blocks at most 512, is asked and no type of its own: each loop would take
// the type apart, and the public functions, which docs/PROMISES.md names, ask it of a number, and of slices that as many blocks fit.

#![tactic(auto)]

pub mod counters;

ghost use Rattle.std.specs.Prelude.{◌≡◌, List, ℕ, ◌+◌, ◌*◌, ◌%◌, ◌^◌, ◌<◌, ◌≤◌, ◌≢◌, length, get_or};
ghost use Rattle.block.specs.Blocks.{block_at, cat};
ghost use Rattle.block.specs.Xor.{◌⊕◌, xors};
ghost use Rattle.lanes.specs.Bits.{bit, Masks, Blank};
ghost use Rattle.cipher.specs.Sm4.{T, rounds, encrypt_words, encrypt_block};
ghost use Rattle.rows.specs.Rows.{place, Rows};
ghost use Rattle.block.specs.Over.{over};
ghost use Rattle.sliced.specs.Lanes.{lane, block_in, Held, Halved};
ghost use Rattle.sliced.specs.Round.{keyed, subbed, mixed, column};

use rows::Batch;
use std::array;

// The masks of N bits of k, from bit `from` on. They are kept in memory, so that the back end makes no branches of them.
pub(crate) fn masks<const N: usize>(k: u32, from: usize) -> [u64; N]
    requires { from + N ≤ 32 }
    ensures { Masks N (λ i. bit (from + i) k) result }
{
    let mut masks = [0; N];
    for (i, mask) in masks.iter_mut().enumerate() {
        *mask = lanes::spread(u64::from(k), from + i);
    }
    masks
}

// What goes into the S-boxes of one column.
fn column_at(x: &[u64; 256], y: &[u64; 256], z: &[u64; 256], m: [u64; 8], p: usize) -> [u64; 8]
    requires { p + 56 < 256 }
    ensures { result ≡ column x.now y.now z.now m p }
{
    array::from_fn(|i| x[p + 8 * i] ^ y[p + 8 * i] ^ z[p + 8 * i] ^ m[i])
}

// What comes out of them, into s.
fn put_column(s: &mut [u64; 512], p: usize, words: [u64; 8])
    requires { p + 56 < 512 }
    ensures placed { (i : ℕ) → i < 8 → get_or s.new (p + 8 * i) 0 ≡ get_or words i 0 }
    ensures rest { (q : ℕ) → ((i : ℕ) → i < 8 → q ≢ p + 8 * i) → get_or s.new q 0 ≡ get_or s.old q 0 }
{
    for (i, word) in words.iter().enumerate() {
        s[p + 8 * i] = *word;
    }
}

// Byte b of x ^ y ^ z ^ k by the S-box, into s.
fn sub_byte(
    s: &mut [u64; 512],
    x: &[u64; 256],
    y: &[u64; 256],
    z: &[u64; 256],
    k: u32,
    b: usize,
    n: usize,
)
    requires bounds { (b < 4) × (n ≤ 8) }
    requires held { Held (subbed x.now y.now z.now k) n (64 * b) s.old }
    ensures { Held (subbed x.now y.now z.now k) n (64 * b + 64) s.new }
{
    let m = masks(k, 8 * b);
    for j in 0..n {
        let p = 64 * b + j;
        put_column(s, p, circuit::sbox(column_at(x, y, z, m, p)));
    }
}

// The first half of s once more behind it, so that a rotation is a distance. A loop, since `copy_within` takes more instructions: half a
// one for each byte of a message.
fn double(s: &mut [u64; 512])
    ensures { (f : ℕ → ℕ) (n : ℕ) → Held f n 256 s.old → Held f n 512 s.new }
{
    for i in 0..256 {
        s[i + 256] = s[i];
    }
}

// L of what s holds, added to a.
fn mix(a: &mut [u64; 256], s: &[u64; 512])
    ensures { (f : ℕ → ℕ) (n : ℕ) → ((e : ℕ) → f e < 2 ^ 32) → Held f n 512 s.now → Held (mixed f a.old) n 256 a.new }
{
    for (i, x) in a.iter_mut().enumerate() {
        *x ^= s[i + 256] ^ s[i + 240] ^ s[i + 176] ^ s[i + 112] ^ s[i + 64];
    }
}

// One round: onto a.
fn round(
    a: &mut [u64; 256],
    b: &[u64; 256],
    c: &[u64; 256],
    d: &[u64; 256],
    s: &mut [u64; 512],
    k: u32,
    n: usize,
)
    requires { n ≤ 8 }
    ensures { (e : ℕ) → e < 512 → e % 8 < n → lane a.new e ≡ lane a.old e ⊕ T (keyed b.now c.now d.now k e) }
{
    for q in 0..4 {
        sub_byte(s, b, c, d, k, q, n);
    }
    double(s);
    mix(a, s);
}

// Halves of blocks into the lanes of two planes. What a has then is not said.
fn enter(a: &mut [u64; 512], high: &mut [u64; 256], low: &mut [u64; 256])
    ensures { Halved a.old high.new low.new }
{
    rows::transpose(a);
    low.copy_from_slice(&a[..256]);
    high.copy_from_slice(&a[256..]);
}

// And back.
fn leave(high: &[u64; 256], low: &[u64; 256], a: &mut [u64; 512])
    ensures halved { Halved a.new high.now low.now }
    ensures small { (p : ℕ) → get_or a.new p 0 < 2 ^ 64 }
{
    a[..256].copy_from_slice(low);
    a[256..].copy_from_slice(high);
    rows::transpose(a);
}

// The words of blocks in lanes, a plane for each of the four, and room for what the S-boxes make of one.
#[derive(Drop)]
pub(crate) struct Planes {
    pub(crate) x0: [u64; 256],
    pub(crate) x1: [u64; 256],
    pub(crate) x2: [u64; 256],
    pub(crate) x3: [u64; 256],
    room: [u64; 512],
}

impl Planes {
    // Nothing in any lane.
    pub(crate) fn new() -> Planes
        ensures { Blank result.x0 × Blank result.x1 × Blank result.x2 × Blank result.x3 }
    {
        Planes {
            x0: [0; 256],
            x1: [0; 256],
            x2: [0; 256],
            x3: [0; 256],
            room: [0; 512],
        }
    }

    // Four rounds, by four round keys.
    fn four(&mut self, k: [u32; 4], n: usize)
        requires { n ≤ 8 }
        ensures { (e : ℕ) → e < 512 → e % 8 < n → block_in self.new e ≡ rounds k (block_in self.old e) }
    {
        round(
            &mut self.x0,
            &self.x1,
            &self.x2,
            &self.x3,
            &mut self.room,
            k[0],
            n,
        );
        round(
            &mut self.x1,
            &self.x2,
            &self.x3,
            &self.x0,
            &mut self.room,
            k[1],
            n,
        );
        round(
            &mut self.x2,
            &self.x3,
            &self.x0,
            &self.x1,
            &mut self.room,
            k[2],
            n,
        );
        round(
            &mut self.x3,
            &self.x0,
            &self.x1,
            &self.x2,
            &mut self.room,
            k[3],
            n,
        );
    }

    // All 32 rounds.
    fn all_rounds(&mut self, rk: [u32; 32], n: usize)
        requires { n ≤ 8 }
        ensures { (e : ℕ) → e < 512 → e % 8 < n → block_in self.new e ≡ rounds rk (block_in self.old e) }
    {
        for k in rk.chunks_exact(4) {
            self.four([k[0], k[1], k[2], k[3]], n);
        }
    }

    // The rounds on the blocks in the first n columns, which go into rows.
    pub(crate) fn rounds_to_rows(&mut self, rk: [u32; 32], n: usize, rows: &mut Batch)
        requires { n ≤ 8 }
        ensures { (m : ℕ) (f : ℕ → List ℕ) → m ≤ 64 * n → ((i : ℕ) → i < m → block_in self.old (place i) ≡ f i) → Rows m (λ i. encrypt_words rk (f i)) rows.new.high rows.new.low }
    {
        self.all_rounds(rk, n);
        leave(&self.x3, &self.x2, &mut rows.high);
        leave(&self.x1, &self.x0, &mut rows.low);
    }
}

// Encrypts the blocks in the first n columns. Two columns are worked on at once: an odd n costs as much as the even one above it.
fn encrypt(rk: [u32; 32], n: usize, rows: &mut Batch)
    requires { n ≤ 8 }
    ensures { (m : ℕ) (f : ℕ → List ℕ) → m ≤ 64 * n → Rows m f rows.old.high rows.old.low → Rows m (λ i. encrypt_words rk (f i)) rows.new.high rows.new.low }
{
    let mut planes = Planes::new();
    enter(&mut rows.high, &mut planes.x0, &mut planes.x1);
    enter(&mut rows.low, &mut planes.x2, &mut planes.x3);
    planes.rounds_to_rows(rk, n, rows);
}

// The most blocks of a batch.
const MOST: usize = 512;

// From so many bytes on, 192 blocks, a batch takes fewer instructions than those of `sixteen` that would take its place.
pub const LEAST: usize = 3072;

// How many of the blocks of `n` bytes the next batch takes.
pub fn next_batch(n: usize) -> usize
    requires { 3072 ≤ n }
    ensures { (1 ≤ result) × (result ≤ 512) × (16 * result ≤ n) }
{
    (n / 16).min(MOST)
}

// In how many columns as many full ones or begun ones are worked on: an even number, since two are worked on at once. `sixteen` has such a
// table of its own: its size, its entries and what they are held to differ, and what both would share is one look-up.
static COLUMNS: [usize; 9] = [0, 2, 2, 4, 4, 6, 6, 8, 8];

// In how many columns m blocks are worked on. It is looked up, by a length, and not reckoned: where the back end works out that a count is
// at most 8, it does not vectorize the loops over it.
pub(crate) fn columns_of(m: usize) -> usize
    requires { m ≤ 512 }
    ensures { (m ≤ 64 * result) × (result ≤ 8) }
{
    COLUMNS[m.div_ceil(64)]
}

// The first m blocks of `src`, each encrypted and xored with its block of `with`, to the front of `out`.
pub fn encrypt_xored(rk: [u32; 32], m: usize, src: &[u8], with: &[u8], out: &mut [u8])
    requires m_bound { (m ≤ 512) × (16 * m ≤ length src.now) }
    requires m_in_bounds { (16 * m ≤ length «with».now) × (16 * m ≤ length out.old) }
    ensures { out.new ≡ over (cat m (λ i. xors (block_at «with».now i) (encrypt_block rk (block_at src.now i)))) out.old }
{
    let mut rows = Batch::new();
    rows.load(src, m);
    encrypt(rk, columns_of(m), &mut rows);
    rows.store_xored(m, with, out);
}
