// Up to 512 blocks side by side. Each stands in two halves of 64 bits, in one row of one column of two arrays: eight columns of 64
// rows. A column is a square matrix of bits, and transposing all columns makes lanes of the blocks: each word then has one and the
// same bit of 64 blocks.

#![tactic(auto)]

ghost use Rattle.std.specs.Prelude.{◌≡◌, List, ◌++◌, ℕ, ◌+◌, ◌*◌, ◌^◌, ◌<◌, ◌≤◌, length, take, drop, get_or};
ghost use Rattle.block.specs.BigEndian.{bytes_of};
ghost use Rattle.block.specs.Blocks.{block_at};
ghost use Rattle.block.specs.Words.{words};
ghost use Rattle.block.specs.Over.{over};
ghost use Rattle.lanes.specs.Bits.{Blank};
ghost use Rattle.rows.specs.Rows.{place, Rows, xored_blocks};
ghost use Rattle.rows.specs.Transposed.{Swapped, Staged, Turned};

// Swaps bits of the w words from g on with bits of the w words after these: bit c + d with bit c, where the mask m has bit c.
fn swap_bits(a: &mut [u64; 512], g: usize, w: usize, d: usize, m: u64)
    requires { (g + w + w ≤ 512) × (d < 64) }
    ensures { Swapped d m g w w a.old a.new }
{
    for e in 0..w {
        let (x, y) = lanes::swapped(a[g + e], a[g + e + w], d, m);
        a[g + e] = x;
        a[g + e + w] = y;
    }
}

// The same for n groups of 2 w words, which are all words. (That d is below 64 is asked of a number, as `lanes::swapped` asks it.)
fn stage(a: &mut [u64; 512], n: usize, w: usize, d: usize, m: u64)
    requires { (2 * w * n ≡ 512) × (w ≤ 256) × (d < 64) }
    ensures { Staged d m w n a.old a.new }
{
    for i in 0..n {
        swap_bits(a, 2 * w * i, w, d, m);
    }
}

// Transposes the eight columns: six stages, each of which swaps one binary digit of a row's number with that of a bit's number.
pub fn transpose(a: &mut [u64; 512])
    ensures { Turned a.old a.new × ((p : ℕ) → get_or a.new p 0 < 2 ^ 64) }
{
    stage(a, 1, 256, 32, 0x0000_0000_ffff_ffff);
    stage(a, 2, 128, 16, 0x0000_ffff_0000_ffff);
    stage(a, 4, 64, 8, 0x00ff_00ff_00ff_00ff);
    stage(a, 8, 32, 4, 0x0f0f_0f0f_0f0f_0f0f);
    stage(a, 16, 16, 2, 0x3333_3333_3333_3333);
    stage(a, 32, 8, 1, 0x5555_5555_5555_5555);
}

// The half of two words.
fn half(high: u32, low: u32) -> u64
    ensures { result ≡ high * 2 ^ 32 + low }
{
    u64::from(high) << 32 | u64::from(low)
}

// Where block i stands.
fn place_of(i: usize) -> usize
    requires { i < 512 }
    ensures { result ≡ place i }
{
    8 * (i % 64) + i / 64
}

// The eight bytes of x. From one u64 they become one store.
fn put_half(out: &mut [u8], at: usize, x: u64)
    requires { at + 8 ≤ length out.old }
    ensures { out.new ≡ take at out.old ++ (bytes_of 8 x ++ drop (at + 8) out.old) }
{
    out[at..at + 8].copy_from_slice(&x.to_be_bytes());
}

// The high and the low halves of blocks, in two arrays, since `transpose` works on one array of halves at a time. m is asked to be at most
// 512 where blocks are taken, and is no type of its own: each loop would take the type apart.
#[derive(Drop)]
pub struct Batch {
    pub high: [u64; 512],
    pub low: [u64; 512],
}

impl Batch {
    // No blocks yet: every half is 0.
    pub fn new() -> Batch
        ensures { Blank result.high × Blank result.low }
    {
        Batch {
            high: [0; 512],
            low: [0; 512],
        }
    }

    // The block x as block i.
    fn put(&mut self, i: usize, x: [u32; 4])
        requires { i < 512 }
        ensures { (f : ℕ → List ℕ) → Rows i f self.old.high self.old.low → f i ≡ x → Rows (i + 1) f self.new.high self.new.low }
    {
        let p = place_of(i);
        self.high[p] = half(x[0], x[1]);
        self.low[p] = half(x[2], x[3]);
    }

    // The first m blocks of `src`.
    pub fn load(&mut self, src: &[u8], m: usize)
        requires { (m ≤ 512) × (16 * m ≤ length src.now) }
        ensures { Rows m (λ i. words (block_at src.now i)) self.new.high self.new.low }
    {
        for i in 0..m {
            self.put(i, block::split_block(&src[16 * i..]));
        }
    }

    // The first m blocks, each xored with its block of `with`, to the front of `out`.
    pub fn store_xored(&self, m: usize, with: &[u8], out: &mut [u8])
        requires { (m ≤ 512) × (16 * m ≤ length «with».now) × (16 * m ≤ length out.old) }
        ensures { (f : ℕ → List ℕ) → Rows m f self.now.high self.now.low → out.new ≡ over (xored_blocks m «with».now f) out.old }
    {
        for i in 0..m {
            let x = block::split_block(&with[16 * i..]);
            let p = place_of(i);
            put_half(out, 16 * i, half(x[0], x[1]) ^ self.high[p]);
            put_half(out, 16 * i + 8, half(x[2], x[3]) ^ self.low[p]);
        }
    }
}
