// Hashes of halves, and how they join: each half is hashed by itself, and the first's hash is then multiplied by H to the second's block
// count.
ghost use Rattle.std.specs.Prelude.{◌≡◌, length};
ghost use Rattle.block.specs.Wide.{value};
ghost use Rattle.block.specs.Xor.{◌⊕◌};
ghost use Rattle.field.specs.Field.{gmul};
ghost use Rattle.ghash.specs.Ghash.{Hashable, blocks, auth_blocks, ghash};
ghost use Rattle.ghash.specs.Joined.{joined, HalfOf};

use crate::{Ghash, block_count};
use block::U128;

// What is kept of blocks to join any hash before them to theirs: their hash, and H to their count.
#[derive(Clone, Copy)]
pub struct Half {
    pub hash: U128,
    pub power: U128,
}

// The hash of `bytes` in blocks, zeros to the last one's end.
pub fn hash_blocks(h: U128, bytes: &[u8]) -> U128
    ensures { value result ≡ ghash (value h) (blocks bytes.now) }
{
    Ghash::new(h).absorb_all(bytes).y
}

impl Half {
    // What is kept of the blocks of `bytes`.
    pub fn of(h: U128, bytes: &[u8]) -> Half
        ensures { HalfOf (value h) (blocks bytes.now) result }
    {
        Half {
            hash: hash_blocks(h, bytes),
            power: field::power(h, block_count(bytes.len()) as u64),
        }
    }

    // The hash `first`, and then these blocks.
    pub fn after(self, first: U128) -> U128
        ensures { value result ≡ gmul (value first) (value self.power) ⊕ value self.hash }
    {
        field::galois_mul(first, self.power) ^ self.hash
    }
}

// The hash of two lists of blocks joined, from the hash of each and the second's block count.
pub fn join(h: U128, first: U128, second: U128, count: u64) -> U128
    ensures { value result ≡ joined (value h) (value first) (value second) count }
{
    let half = Half {
        hash: second,
        power: field::power(h, count),
    };
    half.after(first)
}

// `galois_hash`, where the text has been hashed before: what is kept of its blocks is joined to the label's hash.
pub fn galois_hash_after(h: U128, label: &[u8], text: &[u8], half: Half) -> U128
    requires hashable { Hashable (length label.now) × Hashable (length text.now) }
    requires half_of { HalfOf (value h) (blocks text.now) half }
    ensures { value result ≡ ghash (value h) (auth_blocks label.now text.now) }
{
    let y = half.after(hash_blocks(h, label));
    Ghash { h, y }.absorb_lengths(label.len(), text.len()).y
}
