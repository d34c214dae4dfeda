// The engine of gates: the S-box by the circuit, with neither a look-up nor a branch.
ghost use Rattle.std.specs.Prelude.{◌≡◌, [], ◌≤◌};
ghost use Rattle.cipher.specs.Sm4.{tau, T};
ghost use Rattle.cipher.specs.Gates.{four_lanes, four_bytes};

use crate::l_trans;
use crate::round_map::RoundMap;

// L after tau, as in the plain engine: one type over the two, with a trait for tau, would be longer than both.
pub(crate) struct Gates;

impl RoundMap for Gates {
    ghost map = { T };

    ghost table = { [] };

    #[tactic(auto, unfolding(crate::specs::Sm4::T))]
    fn trans(input: u32) -> u32 {
        l_trans(tau_trans(input))
    }
}

// What stands in lanes 0, 8, 16 and 24 of a word.
fn four_lanes(w: u64) -> u32
    ensures { (result ≡ four_lanes w) × (result ≤ 0x01010101) }
{
    (w & 0x0101_0101) as u32
}

// The bytes of these four lanes, as a word.
fn four_bytes(o: [u64; 8]) -> u32
    ensures { result ≡ four_bytes o }
{
    let mut w = 0;
    for &x in o.iter().rev() {
        w = w * 2 + four_lanes(x);
    }
    w
}

// Each byte of a word by the S-box. Shifted by i, the word has bit i of its four bytes in lanes 0, 8, 16 and 24; what the gates
// make of the other lanes is dropped.
#[tactic(auto, using(crate::proofs::FourLanes::tau_lanes))]
pub(crate) fn tau_trans(input: u32) -> u32
    ensures { result ≡ tau input }
{
    let w = u64::from(input);
    four_bytes(circuit::sbox([w, w >> 1, w >> 2, w >> 3, w >> 4, w >> 5, w >> 6, w >> 7]))
}
