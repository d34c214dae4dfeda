// SM4 on up to 64 blocks side by side, in groups of sixteen: for messages, and rests, that are too short for the batches of `sliced`. Neither
// an index nor a branch depends on a block or a key.

#![tactic(auto)]

mod rounds;

ghost use Rattle.std.specs.Prelude.{◌≡◌, List, ◌++◌, ℕ, ◌+◌, ◌*◌, ◌/◌, ◌%◌, ◌<◌, ◌≤◌, length, take, drop};
ghost use Rattle.block.specs.Blocks.{block_at, cat};
ghost use Rattle.block.specs.Words.{words, unwords};
ghost use Rattle.block.specs.Xor.{xors};
ghost use Rattle.cipher.specs.Sm4.{turned, encrypt_block};
ghost use Rattle.block.specs.Over.{over};
ghost use Rattle.sixteen.specs.Blocks.{block, Held};

// Up to 64 blocks, and room for a round. That there are at most 64 (`m ≤ 64`) stands in each contract: the count is a parameter, which the
// vectors need, and a type of its own would be taken apart in each loop.
#[derive(Drop)]
struct FewBlocks {
    // The four words of block j are word j of four rows of 64 words, which stand one behind the other.
    x: [u32; 256],
    // A word of each block that goes into the S-boxes, and what comes out of them.
    t: [u32; 64],
    s: [u32; 64],
}

impl FewBlocks {
    fn new() -> FewBlocks {
        FewBlocks {
            x: [0; 256],
            t: [0; 64],
            s: [0; 64],
        }
    }

    // The block w as block i.
    fn put(&mut self, i: usize, w: [u32; 4])
        requires { i < 64 }
        ensures { (f : ℕ → List ℕ) → Held i f self.old.x → f i ≡ w → Held (i + 1) f self.new.x }
    {
        self.x[i] = w[0];
        self.x[64 + i] = w[1];
        self.x[128 + i] = w[2];
        self.x[192 + i] = w[3];
    }

    // The first m blocks of `src`.
    fn load(&mut self, src: &[u8], m: usize)
        requires { (m ≤ 64) × (16 * m ≤ length src.now) }
        ensures { Held m (λ j. words (block_at src.now j)) self.new.x }
    {
        for i in 0..m {
            self.put(i, block::split_block(&src[16 * i..]));
        }
    }

    // Block i, its words turned round.
    fn taken(&self, i: usize) -> [u32; 4]
        requires { i < 64 }
        ensures { result ≡ turned (block self.now.x 0 i) }
    {
        [self.x[192 + i], self.x[128 + i], self.x[64 + i], self.x[i]]
    }

    // The first m blocks, turned round, to the front of `out`.
    fn store(&self, m: usize, out: &mut [u8])
        requires { (m ≤ 64) × (16 * m ≤ length out.old) }
        ensures { out.new ≡ over (cat m (λ i. unwords (turned (block self.now.x 0 i)))) out.old }
    {
        for i in 0..m {
            block::put_block(self.taken(i), &mut out[16 * i..]);
        }
    }
}

// How many blocks are worked on: four at a time.
fn whole_fours(m: usize) -> usize
    requires { m ≤ 64 }
    ensures { (m ≤ result) × (result ≤ m + 3) × (result % 4 ≡ 0) }
{
    m.next_multiple_of(4)
}

// In how many groups so many full ones or begun ones are worked on: in one, or in an even number, since two are worked on at once.
static GROUPS: [usize; 5] = [1, 1, 2, 4, 4];

// In how many groups m blocks are worked on. It is looked up, by a length, and not reckoned: where the back end works out that a count is
// small, it does not vectorize the loop over it. (`sliced` has a table of its own: other counts of other groups.)
fn groups_of(m: usize) -> usize
    requires { m ≤ 64 }
    ensures { (m ≤ 16 * result) × (result ≤ 4) }
{
    GROUPS[m.div_ceil(16)]
}

// The first m blocks of `src`, encrypted to the front of `out`.
pub fn encrypt(rk: [u32; 32], m: usize, src: &[u8], out: &mut [u8])
    requires { (m ≤ 64) × (16 * m ≤ length src.now) × (16 * m ≤ length out.old) }
    ensures { out.new ≡ over (cat m (λ i. encrypt_block rk (block_at src.now i))) out.old }
{
    if m == 0 {
        return;
    }
    let mut blocks = FewBlocks::new();
    blocks.load(src, m);
    blocks.all_rounds(rk, whole_fours(m), groups_of(m));
    blocks.store(m, out);
}

// The block before place `at` of a message, which is the IV at the start.
pub fn block_before(iv: [u32; 4], data: &[u8], at: usize) -> [u32; 4]
    requires { (at ≤ length «data».now) × (at % 16 ≡ 0) }
    ensures { unwords result ≡ take 16 (drop at (unwords iv ++ «data».now)) }
{
    if at == 0 {
        return iv;
    }
    let before = at - 16;
    block::split_block(&data[before..])
}

// The blocks before the first n places of a message, to the front of `out`.
pub fn lay_before(iv: [u32; 4], data: &[u8], n: usize, out: &mut [u8])
    requires { (16 * n ≤ length «data».now + 16) × (16 * n ≤ length out.old) }
    ensures { out.new ≡ over (cat n (λ i. block_at (unwords iv ++ «data».now) i)) out.old }
{
    for i in 0..n {
        block::put_block(block_before(iv, data, 16 * i), &mut out[16 * i..]);
    }
}

// The bytes of `data`, each xored with its byte of `pads`, to the front of `out`. By index in two of the three: `out.iter_mut().zip(..)` was
// tried, and a proof knows nothing of what is written through it.
pub fn xor_bytes(pads: &[u8], data: &[u8], out: &mut [u8])
    requires { (length «data».now ≤ length pads.now) × (length «data».now ≤ length out.old) }
    ensures { out.new ≡ over (xors «data».now pads.now) out.old }
{
    for (i, x) in data.iter().enumerate() {
        out[i] = x ^ pads[i];
    }
}
