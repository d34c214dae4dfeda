// The hash of long texts: 8 or 16 interleaved hashes side by side, each of which takes every 8th or 16th block and is multiplied by H to
// the 8th or 16th. At the end they are hashed like blocks, which joins them. Neither an index nor a branch depends on a secret.
//
// The number of hashes is a parameter, as in `carryless::many`, and no type of its own: each loop would take the type apart.
ghost use Rattle.std.specs.Prelude.{◌≡◌, ℕ, ◌*◌, ◌<◌, ◌≤◌, length};
ghost use Rattle.block.specs.Wide.{value};
ghost use Rattle.block.specs.Xor.{◌⊕◌};
ghost use Rattle.carryless.specs.Lanes.{lane, Both};
ghost use Rattle.carryless.specs.Lent.{PartsOf};
ghost use Rattle.field.specs.Field.{Element, gpow};
ghost use Rattle.ghash.specs.Absorbed.{Absorbed};
ghost use Rattle.ghash.specs.Ghash.{blocks};
ghost use Rattle.ghash.specs.Sets.{LaneCount, up_to, block_number, Starts, Hashed};

use crate::Ghash;
use block::U128;
use carryless::Factor;
use carryless::many::Numbers;

// From how many bytes on sixteen hashes are fewer instructions than eight. That holds for AVX2 alone: with vectors of another width the
// turning point is another.
const SIXTEEN_FROM: usize = 1024;

// How many hashes n bytes are worth. That it is not always the same is also what keeps the back end from knowing it: a loop whose count it
// knows is not vectorized here.
fn lanes_for(n: usize) -> usize
    requires { 256 ≤ n }
    ensures { LaneCount result × (16 * result ≤ n) }
{
    if n < SIXTEEN_FROM { 8 } else { 16 }
}

// H to the n.
fn lane_power(h: U128, n: usize) -> U128
    requires { LaneCount n }
    ensures { value result ≡ gpow (value h) n }
{
    let to2 = field::squared(h);
    let to4 = field::squared(to2);
    let to8 = field::squared(to4);
    if n == 8 { to8 } else { field::squared(to8) }
}

// To each of n hashes its block of the n at the front of `bytes`.
fn add_set(bytes: &[u8], n: usize, hashes: &mut Numbers)
    requires count { n ≤ 16 }
    requires room { 16 * n ≤ length bytes.now }
    ensures sums { Both (λ k. lane hashes.old k ⊕ block_number bytes.now k) n hashes.new }
    ensures elements { (k : ℕ) → k < n → Element (lane hashes.new k) }
{
    for k in 0..n {
        let block = block::to_u128(block::split_block(&bytes[16 * k..]));
        hashes.set(k, hashes.get(k) ^ block);
    }
}

// As many sets of n blocks as `bytes` has, of which there is one, for the n-th power p of H. How many blocks were taken is returned.
fn absorb_sets(p: &Factor, n: usize, bytes: &[u8], hashes: &mut Numbers) -> usize
    requires parts { PartsOf p.now }
    requires count { (1 ≤ n) × (n ≤ 16) }
    requires room { 16 * n ≤ length bytes.now }
    ensures hashed { (h y : ℕ) → Element h → value p.now.number ≡ gpow h n → Starts n y (lane hashes.old) → Hashed h y (up_to result (block_number bytes.now)) n (lane hashes.new) }
    ensures there { 16 * result ≤ length bytes.now }
{
    let sets = bytes.len() / 16 / n;
    add_set(bytes, n, hashes);
    for s in 1..sets {
        field::many::multiply(p, n, hashes);
        add_set(&bytes[16 * (n * s)..], n, hashes);
    }
    n * sets
}

// The first n hashes, one after the other.
fn absorb_hashes(g: Ghash, n: usize, hashes: &Numbers) -> Ghash
    requires { n ≤ 16 }
    ensures { Absorbed g (up_to n (lane hashes.now)) result }
{
    let h = carryless::parts(g.h);
    let mut state = g;
    for k in 0..n {
        state = state.step(&h, hashes.get(k));
    }
    state
}

// All of `bytes`, zeros to the last block's end.
pub(crate) fn absorb_lanes(g: Ghash, bytes: &[u8]) -> Ghash
    requires { 256 ≤ length bytes.now }
    ensures { Absorbed g (blocks bytes.now) result }
{
    let n = lanes_for(bytes.len());
    let p = carryless::parts(lane_power(g.h, n));
    let mut hashes = Numbers::ZEROS;
    hashes.set(0, g.y);
    let taken = absorb_sets(&p, n, bytes, &mut hashes);
    absorb_hashes(Ghash::new(g.h), n, &hashes).absorb_each(&bytes[16 * taken..])
}
