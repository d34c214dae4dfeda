// GCM's hash over bytes: `galois_hash` of libsm's `gcm.rs`, with the state by value and no padded copy.

#![tactic(auto)]

pub mod halves;
mod interleaved;

ghost use Rattle.std.specs.Prelude.{◌≡◌, [], ◌∷◌, length};
ghost use Rattle.block.specs.Words.{words};
ghost use Rattle.block.specs.Wide.{value};
ghost use Rattle.carryless.specs.Lent.{PartsOf};
ghost use Rattle.ghash.specs.Ghash.{Hashable, block_of, block_count, blocks, length_block, auth_blocks, ghash};
ghost use Rattle.ghash.specs.Absorbed.{Absorbed};

use block::U128;
use carryless::Factor;

// The words of the block at the front of `rest`, zeros where `rest` ends.
fn load_block(rest: &[u8]) -> [u32; 4]
    ensures { result ≡ words rest.now }
{
    if rest.len() >= 16 {
        return block::split_block(rest);
    }
    let mut block = [0; 16];
    block[..rest.len()].copy_from_slice(rest);
    block::split_block(&block)
}

// How many blocks n bytes are, the last one of which may be short.
pub fn block_count(n: usize) -> usize
    ensures { result ≡ block_count n }
{
    n.div_ceil(16)
}

// From how many bytes on hashes side by side are fewer instructions than one, on x86-64 with AVX2. With SSE2 they are 3 in a hundred more
// here, and fewer from 512 on.
const LANES_FROM: usize = 256;

// The hash on its way: the key H, and the hash of the blocks so far.
#[derive(Clone, Copy)]
pub struct Ghash {
    pub h: U128,
    pub y: U128,
}

impl Ghash {
    // Before the first block the hash is 0.
    pub fn new(h: U128) -> Ghash
        ensures { (result.h ≡ h) × (value result.y ≡ 0) }
    {
        Ghash {
            h,
            y: U128 { high: 0, low: 0 },
        }
    }

    // One block: (hash xor b) times H.
    #[tactic(auto, unfolding(crate::specs::Ghash::hash_from))]
    fn step(self, h: &Factor, b: U128) -> Ghash
        requires { PartsOf h.now × (h.now.number ≡ self.h) }
        ensures { Absorbed self (value b ∷ []) result }
    {
        Ghash {
            y: field::times(self.y ^ b, h),
            ..self
        }
    }

    // The block at the front of `rest`, zeros where `rest` ends.
    fn absorb(self, h: &Factor, rest: &[u8]) -> Ghash
        requires { PartsOf h.now × (h.now.number ≡ self.h) }
        ensures { Absorbed self (block_of rest.now ∷ []) result }
    {
        self.step(h, block::to_u128(load_block(rest)))
    }

    // All of `bytes`, zeros to the last block's end, block by block. A step is handed the tail of the bytes and no chunk: it is one of the
    // nine forms (docs/DECISIONS.md).
    fn absorb_each(self, bytes: &[u8]) -> Ghash
        ensures { Absorbed self (blocks bytes.now) result }
    {
        let h = carryless::parts(self.h);
        let mut state = self;
        for i in 0..block_count(bytes.len()) {
            let at = 16 * i;
            state = state.absorb(&h, &bytes[at..]);
        }
        state
    }

    // All of `bytes`, zeros to the last block's end.
    pub fn absorb_all(self, bytes: &[u8]) -> Ghash
        ensures { Absorbed self (blocks bytes.now) result }
    {
        if bytes.len() < LANES_FROM {
            self.absorb_each(bytes)
        } else {
            interleaved::absorb_lanes(self, bytes)
        }
    }

    // The length block: both lengths in bits, the label's first.
    pub fn absorb_lengths(self, label: usize, text: usize) -> Ghash
        requires { Hashable label × Hashable text }
        ensures { Absorbed self (length_block label text ∷ []) result }
    {
        let b = U128 {
            high: 8 * label as u64,
            low: 8 * text as u64,
        };
        self.step(&carryless::parts(self.h), b)
    }
}

// The hash of a label and a text, with their lengths.
pub fn galois_hash(h: U128, label: &[u8], text: &[u8]) -> U128
    requires { Hashable (length label.now) × Hashable (length text.now) }
    ensures { value result ≡ ghash (value h) (auth_blocks label.now text.now) }
{
    Ghash::new(h)
        .absorb_all(label)
        .absorb_all(text)
        .absorb_lengths(label.len(), text.len())
        .y
}
