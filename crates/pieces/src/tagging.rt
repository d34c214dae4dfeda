// What sealing and opening begin with.
ghost use Rattle.std.specs.Prelude.{◌≡◌, ◌⊎◌, [], length};
ghost use Rattle.block.specs.Words.{unwords};
ghost use Rattle.cipher.specs.Sm4.{encrypt_block};
ghost use Rattle.counter.specs.Counter.{last_four};
ghost use Rattle.gcm.specs.Gcm.{hash_key, J0};
ghost use Rattle.pieces.specs.Hashing.{hash_of};

use crate::hashing::Hashing;
use crate::{flow, hashing};
use cipher::Engine;

// J0 of the IV, the number in its last four bytes, the hash of the label, and the cipher of J0 for the tag.
#[derive(Clone, Copy)]
pub(crate) struct Tagging {
    pub j0: [u32; 4],
    pub low: u32,
    pub hashing: Hashing,
    pub mask: [u8; 16],
}

// The size of the IV is asked as `gcm::first_counter`, which is public, asks it.
pub(crate) fn begin(engine: Engine, rk: [u32; 32], aad: &[u8], iv: &[u8]) -> Tagging
    requires { (length iv.now ≡ 12) ⊎ (length iv.now ≡ 16) }
    ensures j0_value { unwords result.j0 ≡ J0 rk iv.now }
    ensures hashing_value { result.hashing ≡ hash_of (hash_key rk) aad.now [] }
    ensures mask_value { result.mask ≡ encrypt_block rk (J0 rk iv.now) }
    ensures low_value { result.low ≡ last_four (J0 rk iv.now) }
{
    let h = gcm::hash_key(engine, rk);
    let j0 = gcm::first_counter(h, iv);
    Tagging {
        j0,
        low: j0[3],
        hashing: hashing::begin(h, aad),
        mask: flow::ciphered(engine, rk, j0),
    }
}
