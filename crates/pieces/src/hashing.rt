// GCM's hash on its way through a text that comes in pieces.
ghost use Rattle.std.specs.Prelude.{◌≡◌, [], ◌++◌, ◌<◌, ◌≤◌, take};
ghost use Rattle.block.specs.BigEndian.{number_of, bytes_of};
ghost use Rattle.block.specs.Wide.{value};
ghost use Rattle.ghash.specs.Ghash.{Hashable};
ghost use Rattle.pieces.specs.Hashing.{filled_up, hash_after, hash_next, hash_end, hash_of};

use block::U128;
use ghash::Ghash;

// The key H, the hash of the full blocks so far, and the block that is begun, each as sixteen bytes. How much is begun is the
// caller's to know.
#[repr(C)]
#[derive(Clone, Copy, Default)]
pub struct Hashing {
    pub h: [u8; 16],
    pub y: [u8; 16],
    pub held: [u8; 16],
}

// The number of a block's bytes and back: both types are of other crates, so no From stands here.
fn number_of(b: [u8; 16]) -> U128
    ensures { value result ≡ number_of b }
{
    block::to_u128(block::split_block(&b))
}

fn bytes_of(n: U128) -> [u8; 16]
    ensures { result ≡ bytes_of 16 (value n) }
{
    block::combine_block(block::from_u128(n))
}

// The first p bytes of `held` with `data` behind them: the first sixteen of these, zeros to the end.
fn filled(held: [u8; 16], p: usize, data: &[u8]) -> [u8; 16]
    requires { p ≤ 16 }
    ensures { result ≡ filled_up (take p held ++ «data».now) }
{
    let n = data.len().min(16 - p);
    let mut b = [0u8; 16];
    b[..p].copy_from_slice(&held[..p]);
    b[p..p + n].copy_from_slice(&data[..n]);
    b
}

impl Hashing {
    // The hash of the full blocks so far, as it goes on.
    fn ghash(self) -> Ghash
        ensures h_value { value result.h ≡ number_of self.h }
        ensures y_value { value result.y ≡ number_of self.y }
    {
        Ghash {
            h: number_of(self.h),
            y: number_of(self.y),
        }
    }

    // `data` behind the p bytes that are held.
    pub(crate) fn take_in(self, p: usize, data: &[u8]) -> Hashing
        requires { p < 16 }
        ensures { result ≡ hash_next self p «data».now }
    {
        let held = filled(self.held, p, data);
        let begun = Hashing { held, ..self };
        let m = 16 - p;
        if data.len() < m {
            return begun;
        }
        begun.full_blocks(&data[m..])
    }

    // Where a full block is held, it and `rest`: their full blocks go through the hash as they stand, and the last bytes are held.
    fn full_blocks(self, rest: &[u8]) -> Hashing
        ensures { result ≡ hash_after self.h self.y (self.held ++ rest.now) }
    {
        let n = rest.len() - rest.len() % 16;
        let first = self.ghash().absorb_all(&self.held);
        let all = first.absorb_all(&rest[..n]);
        Hashing {
            y: bytes_of(all.y),
            held: filled([0; 16], 0, &rest[n..]),
            ..self
        }
    }

    // The hash at the end of a text, where p bytes are held, for these lengths of label and text.
    pub(crate) fn end(self, p: usize, label: usize, text: usize) -> [u8; 16]
        requires p_bound { p < 16 }
        requires hashable { Hashable label × Hashable text }
        ensures { result ≡ hash_end self p label text }
    {
        let all = self.ghash().absorb_all(&self.held[..p]);
        bytes_of(all.absorb_lengths(label, text).y)
    }
}

// The hash before the first byte of a text, under H: that of the label's blocks.
pub(crate) fn begin(h: U128, label: &[u8]) -> Hashing
    ensures { result ≡ hash_of (value h) label.now [] }
{
    let labelled = Ghash::new(h).absorb_all(label);
    Hashing {
        h: bytes_of(h),
        y: bytes_of(labelled.y),
        held: [0; 16],
    }
}
