// The engine of four tables of 256 words, each of which holds byte substitution and L together. L distributes over xor, so T of a
// word is one entry of each table, xored.
ghost use Rattle.std.specs.Prelude.{◌≡◌};
ghost use Rattle.cipher.specs.Sm4.{T};
ghost use Rattle.cipher.specs.Engine.{mixed_table, table_of};

use crate::Engine;
use crate::constants::MIXED;
use crate::round_map::RoundMap;

pub(crate) struct FourTables;

impl RoundMap for FourTables {
    ghost map = { T };

    ghost table = { mixed_table };

    #[tactic(auto, using(crate::proofs::FourTables::mixed_T))]
    fn trans(input: u32) -> u32 {
        // from the low byte up: the other way the back end takes an instruction more for each round
        let [a, b, c, d] = input.to_le_bytes();
        let t = tables();
        t[768 + a as usize] ^ t[512 + b as usize] ^ t[256 + c as usize] ^ t[d as usize]
    }
}

// The four tables, one after the other.
fn tables() -> &'static [u32; 1024]
    ensures { result.now ≡ table_of Engine.FourTables }
{
    &MIXED
}
