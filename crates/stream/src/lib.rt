// The modes of libsm's `cipher_mode.rs` that xor a message with the cipher of a state: `cfb_encrypt`, `cfb_decrypt`,
// `ofb_encrypt`, `ctr_encrypt`, and `galois_ctr` of Gcm. They differ in the next state alone, so one loop serves all.

#![tactic(auto)]

mod batches;
pub mod few;

ghost use Rattle.std.specs.Prelude.{◌≡◌, true, false, ◌++◌, ◌<◌, ◌≤◌, length, take, drop, IfSome};
ghost use Rattle.block.specs.Words.{unwords};
ghost use Rattle.block.specs.Xor.{xors};
ghost use Rattle.cipher.specs.Sm4.{encrypt_block};
ghost use Rattle.block.specs.Over.{over};
ghost use Rattle.walk.specs.Walk.{chain, end_state};
ghost use Rattle.stream.specs.Ends.{Ends};
ghost use Rattle.stream.specs.Stream.{state_after, stream_mode, kind_of};

use batches::Place;
use cipher::Engine;

// The mode and, where they differ, the direction.
#[derive(Clone, Copy, PartialEq, Eq, Debug)]
pub enum Kind {
    CfbEncrypt,
    CfbDecrypt,
    Ofb,
    Ctr,
    Gctr,
}

// The kinds whose states are known before a block is ciphered: those of Cfb decryption are the blocks before, the others counters, Ctr's
// wide ones.
#[derive(Clone, Copy, PartialEq, Eq, Debug)]
pub(crate) enum KnownAhead {
    Feedback,
    Counter { wide: bool },
}

impl KnownAhead {
    // What a kind is, if its states are known ahead.
    fn of(kind: Kind) -> Option<KnownAhead>
        ensures { IfSome result (λ known. kind_of known ≡ kind) }
    {
        match kind {
            Kind::CfbEncrypt | Kind::Ofb => None,
            Kind::CfbDecrypt => Some(KnownAhead::Feedback),
            Kind::Ctr => Some(KnownAhead::Counter { wide: true }),
            Kind::Gctr => Some(KnownAhead::Counter { wide: false }),
        }
    }
}

// The state after the block `b`: `s` is the state before it, `e` the cipher of `s`, and `c` what the block became. (A switch, and no type
// for each kind: the kind is told at run time, since a host chooses the mode.)
fn state_after(kind: Kind, s: [u32; 4], e: [u32; 4], b: [u32; 4], c: [u32; 4]) -> [u32; 4]
    ensures { unwords result ≡ state_after kind (unwords s) (unwords e) (unwords b) (unwords c) }
{
    match kind {
        Kind::CfbEncrypt => c,
        Kind::CfbDecrypt => b,
        Kind::Ofb => e,
        Kind::Ctr => counter::block_add_one(s).counter,
        Kind::Gctr => counter::gcm_block_add_one(s).counter,
    }
}

// The block at the front of `data`, to the front of `out`. Returns the next state.
pub(crate) fn step(
    engine: Engine,
    rk: [u32; 32],
    kind: Kind,
    s: [u32; 4],
    data: &[u8],
    out: &mut [u8],
) -> [u32; 4]
    requires in_bounds { 16 ≤ length «data».now }
    requires in_bounds_2 { 16 ≤ length out.old }
    ensures result_value { unwords result ≡ (stream_mode kind rk).next (unwords s) (take 16 «data».now) }
    ensures out_after { out.new ≡ (stream_mode kind rk).block (unwords s) (take 16 «data».now) ++ drop 16 out.old }
{
    let e = cipher::encrypt(engine, rk, s);
    let b = block::split_block(data);
    let c = block::block_xor(b, e);
    block::put_block(c, out);
    state_after(kind, s, e, b, c)
}

// Whether the cipher of the state behind the full blocks is needed: where bytes are left behind these, or the message goes on.
pub(crate) fn pad_needed(on: bool, rest: usize) -> bool
    ensures { (on ≡ true → result ≡ true) × (result ≡ false → rest ≡ 0) }
{
    on || rest > 0
}

// A rest shorter than a block, to the front of `out`: xored with the front of the cipher's output, which is returned where the message goes
// on.
fn xor_rest(
    engine: Engine,
    rk: [u32; 32],
    s: [u32; 4],
    on: bool,
    data: &[u8],
    out: &mut [u8],
) -> [u8; 16]
    requires data_len_bound { length «data».now < 16 }
    requires data_in_bounds { length «data».now ≤ length out.old }
    ensures value { on ≡ true → result ≡ encrypt_block rk (unwords s) }
    ensures out_after { out.new ≡ over (xors «data».now (encrypt_block rk (unwords s))) out.old }
{
    if !pad_needed(on, data.len()) {
        return [0u8; 16];
    }
    let pad = block::combine_block(cipher::encrypt(engine, rk, s));
    sixteen::xor_bytes(&pad, data, out);
    pad
}

// Where a walk ends: the state after the full blocks, and, where the message goes on, the cipher of it, with which a rest was xored. A
// message that goes on takes both from here, so that no block is ciphered twice. (The caller says whether it goes on, and takes the pad
// only then; an Option would make it ask again. No `==` and no `Debug`: the pad is secret.)
#[derive(Clone, Copy)]
pub struct End {
    pub state: [u32; 4],
    pub pad: [u8; 16],
}

// A message, one block after the other. (The tail of the data is handed to the next step: one of the nine forms, docs/DECISIONS.md. Cbc has
// such a loop over its trait `Way`; one for both would need a type for each kind here, and the kind is told at run time.)
fn one_by_one(
    engine: Engine,
    rk: [u32; 32],
    kind: Kind,
    iv: [u32; 4],
    on: bool,
    data: &[u8],
    out: &mut [u8],
) -> End
    requires { length «data».now ≤ length out.old }
    ensures { Ends kind rk on (unwords iv) «data».now out.old (unwords result.state) result.pad out.new }
{
    let full = data.len() / 16;
    let mut s = iv;
    for i in 0..full {
        let at = 16 * i;
        // by a local of its own: the check takes no call's result right into an array that is handed on whole at the end
        let next = step(engine, rk, kind, s, &data[at..], &mut out[at..]);
        s = next;
    }
    let at = 16 * full;
    let pad = xor_rest(engine, rk, s, on, &data[at..], &mut out[at..]);
    End { state: s, pad }
}

// What the batches left of a message whose states are known ahead: side by side, if it has a full block.
fn finish(
    rk: [u32; 32],
    kind: KnownAhead,
    iv: [u32; 4],
    on: bool,
    data: &[u8],
    out: &mut [u8],
) -> End
    requires { length «data».now ≤ length out.old }
    ensures { Ends (kind_of kind) rk on (unwords iv) «data».now out.old (unwords result.state) result.pad out.new }
{
    if data.len() < 16 {
        let pad = xor_rest(Engine::Gates, rk, iv, on, data, out);
        End { state: iv, pad }
    } else {
        few::run(rk, kind, iv, on, data, out)
    }
}

// A message whose states are known ahead, by the gates.
fn by_gates(
    rk: [u32; 32],
    kind: KnownAhead,
    iv: [u32; 4],
    on: bool,
    data: &[u8],
    out: &mut [u8],
) -> End
    requires { length «data».now ≤ length out.old }
    ensures { Ends (kind_of kind) rk on (unwords iv) «data».now out.old (unwords result.state) result.pad out.new }
{
    let Place { state, at } = batches::run(rk, kind, iv, data, out);
    finish(rk, kind, state, on, &data[at..], &mut out[at..])
}

// The whole message `data`, to the front of `out`. Returns where the walk ends, with the cipher of the state there if the message goes on.
// (Engine and round keys come apart, here and in what this calls: the keys by value are one of the nine forms, docs/DECISIONS.md. That the
// output has room for the data stays a clause: a struct of the two slices would be made here to be taken apart in each step.)
pub fn stream(
    engine: Engine,
    rk: [u32; 32],
    kind: Kind,
    iv: [u32; 4],
    on: bool,
    data: &[u8],
    out: &mut [u8],
) -> End
    requires { length «data».now ≤ length out.old }
    ensures state_value { unwords result.state ≡ end_state (stream_mode kind rk) (unwords iv) «data».now }
    ensures pad_value { on ≡ true → result.pad ≡ encrypt_block rk (end_state (stream_mode kind rk) (unwords iv) «data».now) }
    ensures out_after { out.new ≡ over (chain (stream_mode kind rk) (unwords iv) «data».now) out.old }
{
    match KnownAhead::of(kind) {
        Some(known) if engine == Engine::Gates => by_gates(rk, known, iv, on, data, out),
        _ => one_by_one(engine, rk, kind, iv, on, data, out),
    }
}
