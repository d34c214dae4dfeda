// The plain engine: the S-box, looked up byte by byte, as the standard is written.
ghost use Rattle.std.specs.Prelude.{◌≡◌};
ghost use Rattle.cipher.specs.Sm4.{sbox_table, Sbox, tau, T};
ghost use Rattle.cipher.specs.Engine.{table_of};

use crate::constants::SBOX;
use crate::round_map::RoundMap;
use crate::{Engine, l_trans};

pub(crate) struct Plain;

impl RoundMap for Plain {
    ghost map = { T };

    ghost table = { sbox_table };

    #[tactic(auto, unfolding(crate::specs::Sm4::T))]
    fn trans(input: u32) -> u32 {
        l_trans(tau_trans(input))
    }
}

// The S-box's table.
#[tactic(auto, unfolding(crate::specs::Sm4::sbox_table))]
fn table() -> &'static [u8; 256]
    ensures { result.now ≡ table_of Engine.Plain }
{
    &SBOX
}

// A byte by the S-box.
fn sbox(b: u8) -> u8
    ensures { result ≡ Sbox b }
{
    table()[b as usize]
}

// Each byte of a word by the S-box.
fn tau_trans(input: u32) -> u32
    ensures { result ≡ tau input }
{
    u32::from_le_bytes(input.to_le_bytes().map(sbox))
}
