// Up to 64 blocks of a message side by side by the gates, and with them the cipher of the state behind, where the states are known ahead:
// for what is too short for a batch.
ghost use Rattle.std.specs.Prelude.{◌≡◌, ◌⊎◌, true, List, ℕ, ◌+◌, ◌*◌, ◌<◌, ◌≤◌, length, take, drop};
ghost use Rattle.block.specs.Blocks.{block_at, cat};
ghost use Rattle.block.specs.Words.{unwords};
ghost use Rattle.cipher.specs.Sm4.{encrypt_block};
ghost use Rattle.counter.specs.Counter.{jumped};
ghost use Rattle.block.specs.Over.{over};
ghost use Rattle.walk.specs.Walk.{stepped};
ghost use Rattle.stream.specs.Ends.{Ends};
ghost use Rattle.stream.specs.Stream.{stream_mode, kind_of};

use crate::batches::counter_after;
use crate::{End, KnownAhead, pad_needed};

// n counters from c on, to the front of `out`.
pub fn lay_counters(wide: bool, c: [u32; 4], n: usize, out: &mut [u8])
    requires { (n ≤ 65) × (16 * n ≤ length out.old) }
    ensures { out.new ≡ over (cat n (jumped wide (unwords c))) out.old }
{
    for i in 0..n {
        block::put_block(counter_after(wide, c, i), &mut out[16 * i..]);
    }
}

// The states of n blocks, to the front of `out`.
fn lay(kind: KnownAhead, iv: [u32; 4], data: &[u8], n: usize, out: &mut [u8])
    requires { (n ≤ 65) × (16 * n ≤ length «data».now + 16) × (16 * n ≤ length out.old) }
    ensures { (rk : List ℕ) (i : ℕ) → i < n → block_at out.new i ≡ stepped (stream_mode (kind_of kind) rk) i (unwords iv) «data».now }
{
    match kind {
        KnownAhead::Feedback => sixteen::lay_before(iv, data, n, out),
        KnownAhead::Counter { wide } => lay_counters(wide, iv, n, out),
    }
}

// The block at a place.
pub(crate) fn block_at(s: &[u8], at: usize) -> [u32; 4]
    requires { at + 16 ≤ length s.now }
    ensures { unwords result ≡ take 16 (drop at s.now) }
{
    block::split_block(&s[at..])
}

// How many states are ciphered for m blocks: one more where the pad behind them is needed.
fn ciphered(m: usize, pad: bool) -> usize
    requires { (m ≤ 64) × (pad ≡ true → m ≤ 63) }
    ensures { ((result ≡ m) ⊎ (result ≡ m + 1)) × (pad ≡ true → result ≡ m + 1) × (result ≤ 64) }
{
    if pad { m + 1 } else { m }
}

// The first m blocks of `data`, to the front of `out`. Returns the state behind them, and, where that is asked for, the cipher of it.
fn few(
    rk: [u32; 32],
    kind: KnownAhead,
    iv: [u32; 4],
    m: usize,
    pad: bool,
    data: &[u8],
    out: &mut [u8],
) -> End
    requires m_bound { (m ≤ 64) × (pad ≡ true → m ≤ 63) }
    requires m_in_bounds { (16 * m ≤ length «data».now) × (16 * m ≤ length out.old) }
    ensures state_value { unwords result.state ≡ stepped (stream_mode (kind_of kind) rk) m (unwords iv) «data».now }
    ensures pad_value { pad ≡ true → result.pad ≡ encrypt_block rk (stepped (stream_mode (kind_of kind) rk) m (unwords iv) «data».now) }
    ensures out_after { out.new ≡ over (cat m (λ i. (stream_mode (kind_of kind) rk).block (stepped (stream_mode (kind_of kind) rk) i (unwords iv) «data».now) (block_at «data».now i))) out.old }
{
    let mut states = [0u8; 1040];
    lay(kind, iv, data, m + 1, &mut states);
    let mut pads = [0u8; 1040];
    sixteen::encrypt(rk, ciphered(m, pad), &states, &mut pads);
    let n = 16 * m;
    sixteen::xor_bytes(&pads, &data[..n], out);
    End {
        state: block_at(&states, n),
        pad: block::combine_block(block_at(&pads, n)),
    }
}

// A message of fewer than 64 blocks.
fn last(rk: [u32; 32], kind: KnownAhead, iv: [u32; 4], on: bool, data: &[u8], out: &mut [u8]) -> End
    requires { (length «data».now < 1024) × (length «data».now ≤ length out.old) }
    ensures { Ends (kind_of kind) rk on (unwords iv) «data».now out.old (unwords result.state) result.pad out.new }
{
    let m = data.len() / 16;
    let end = few(rk, kind, iv, m, pad_needed(on, data.len() % 16), data, out);
    let at = 16 * m;
    sixteen::xor_bytes(&end.pad, &data[at..], &mut out[at..]);
    end
}

// A message, 64 blocks at a time.
pub(crate) fn run(
    rk: [u32; 32],
    kind: KnownAhead,
    iv: [u32; 4],
    on: bool,
    data: &[u8],
    out: &mut [u8],
) -> End
    requires { length «data».now ≤ length out.old }
    ensures { Ends (kind_of kind) rk on (unwords iv) «data».now out.old (unwords result.state) result.pad out.new }
{
    let turns = data.len() / 1024;
    let mut s = iv;
    for i in 0..turns {
        let at = 1024 * i;
        let end = few(rk, kind, s, 64, false, &data[at..], &mut out[at..]);
        s = end.state;
    }
    let at = 1024 * turns;
    last(rk, kind, s, on, &data[at..], &mut out[at..])
}
