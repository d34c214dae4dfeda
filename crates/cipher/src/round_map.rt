// The rounds, by any map of a word.
ghost use Rattle.std.specs.Prelude.{◌≡◌, List, ℕ};
ghost use Rattle.cipher.specs.Sm4.{T, round_by, encrypt_words};
ghost use Rattle.cipher.specs.Engine.{table_of};

use crate::Engine;

// What a round makes of a word: the map T, to which each engine has a way of its own, or T' in the key sequence.
pub(crate) trait RoundMap {
    ghost map: { ℕ → ℕ };

    // What it looks up.
    ghost table: { List ℕ };

    fn trans(input: u32) -> u32
        ensures { result ≡ map input };
}

// One round, with its round key.
pub(crate) fn round<M: RoundMap>(x: [u32; 4], k: u32) -> [u32; 4]
    ensures { result ≡ round_by M.map x k }
{
    [x[1], x[2], x[3], x[0] ^ M::trans(x[1] ^ x[2] ^ x[3] ^ k)]
}

// One block, encrypted. The round keys go four at a time, since the back end then writes four rounds by tables out one after the other, and
// puts the gates in place, which it calls in a single loop.
pub(crate) fn encrypt<M: RoundMap>(engine: Engine, rk: [u32; 32], block_in: [u32; 4]) -> [u32; 4]
    requires map { M.map ≡ T }
    requires table { M.table ≡ table_of engine }
    ensures { result ≡ encrypt_words rk block_in }
{
    let mut x = block_in;
    for four in rk.chunks_exact(4) {
        for &k in four {
            x = round::<M>(x, k);
        }
    }
    let [a, b, c, d] = x;
    [d, c, b, a]
}
