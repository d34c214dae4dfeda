// Cbc with padding: `cbc_encrypt` and `cbc_decrypt` of libsm's `cipher_mode.rs`.

#![tactic(auto)]

ghost use Rattle.std.specs.Prelude.{◌≡◌, List, [], ℕ, ◌++◌, reverse, refl, ◌+◌, ◌-◌, ◌*◌, ◌/◌, ◌%◌, ◌<◌, ◌≤◌, length, take, drop};
ghost use Rattle.block.specs.Blocks.{block_at, cat};
ghost use Rattle.block.specs.Words.{unwords};
ghost use Rattle.walk.specs.Reached.{Reached};
ghost use Rattle.block.specs.Over.{over};
ghost use Rattle.walk.specs.Walk.{Mode, chain, stepped, end_state};
ghost use Rattle.padding.specs.Padding.{unpadded, opened_into};
ghost use Rattle.cbc.specs.Cbc.{cbc_encrypt, cbc_decrypt, cbc_seal, cbc_text};
ghost use Rattle.cbc.specs.Full.{sealed_full, opened_full};

use cipher::Engine;
use padding::BadPadding;
use sliced::LEAST;

// A way through the blocks of a message, by round keys.
trait Way {
    ghost mode: { List ℕ → Mode };

    // The block at the front of `data`, to the front of `out`. Returns the next state, the ciphertext block.
    fn step(engine: Engine, rk: [u32; 32], s: [u32; 4], data: &[u8], out: &mut [u8]) -> [u32; 4]
        requires in_bounds { 16 ≤ length «data».now }
        requires in_bounds_2 { 16 ≤ length out.old }
        ensures result_value { unwords result ≡ (mode rk).next (unwords s) (take 16 «data».now) }
        ensures out_after { out.new ≡ (mode rk).block (unwords s) (take 16 «data».now) ++ drop 16 out.old };

    // A full block gives a full block, and a rest nothing.
    ghost full: { (rk s b : List ℕ) → length s ≡ 16 → length ((mode rk).block s b) ≡ 16 };

    ghost no_rest: { (rk s d : List ℕ) → (mode rk).rest s d ≡ [] };
}

// Encryption.
struct Sealing;

// Decryption, by the round keys turned round.
struct Opening;

impl Way for Sealing {
    ghost mode = { cbc_encrypt };

    ghost full = { sealed_full };

    ghost no_rest = { λ rk s d. refl };

    fn step(engine: Engine, rk: [u32; 32], s: [u32; 4], data: &[u8], out: &mut [u8]) -> [u32; 4] {
        let e = cipher::encrypt(engine, rk, block::block_xor(block::split_block(data), s));
        block::put_block(e, out);
        e
    }
}

impl Way for Opening {
    ghost mode = { λ back. cbc_decrypt (reverse back) };

    ghost full = { opened_full };

    ghost no_rest = { λ rk s d. refl };

    fn step(engine: Engine, back: [u32; 32], s: [u32; 4], data: &[u8], out: &mut [u8]) -> [u32; 4] {
        let p = cipher::encrypt(engine, back, block::split_block(data));
        block::put_block(block::block_xor(p, s), out);
        // read once more, so that it need not be kept while the cipher works
        block::split_block(data)
    }
}

// The full blocks of `data`, one after the other, to the front of `out`. Returns the state after them. (The tail of the data is handed to
// the next step: one of the nine forms, docs/DECISIONS.md.)
fn one_by_one<W: Way>(
    engine: Engine,
    rk: [u32; 32],
    iv: [u32; 4],
    data: &[u8],
    out: &mut [u8],
) -> [u32; 4]
    requires { length «data».now ≤ length out.old }
    ensures result_value { unwords result ≡ end_state (W.mode rk) (unwords iv) «data».now }
    ensures out_after { out.new ≡ over (chain (W.mode rk) (unwords iv) «data».now) out.old }
{
    let mut s = iv;
    for i in 0..data.len() / 16 {
        let at = 16 * i;
        // by a local of its own: the check takes no call's result right into an array that is handed on whole at the end
        let next = W::step(engine, rk, s, &data[at..], &mut out[at..]);
        s = next;
    }
    s
}

// The full blocks of `data`, encrypted to the front of `out`. Returns the state after them, with which a message goes on. (Engine and round
// keys come apart, here and below: the keys by value are one of the nine forms, docs/DECISIONS.md. That the output has room for the data
// stays a clause: a struct of the two slices would be made here to be taken apart in each step.)
pub fn encrypt_blocks(
    engine: Engine,
    rk: [u32; 32],
    iv: [u32; 4],
    data: &[u8],
    out: &mut [u8],
) -> [u32; 4]
    requires { length «data».now ≤ length out.old }
    ensures result_value { unwords result ≡ end_state (cbc_encrypt rk) (unwords iv) «data».now }
    ensures out_after { out.new ≡ over (chain (cbc_encrypt rk) (unwords iv) «data».now) out.old }
{
    one_by_one::<Sealing>(engine, rk, iv, data, out)
}

// The whole message `data` with its padding, encrypted to the front of `out`.
pub fn encrypt(engine: Engine, rk: [u32; 32], iv: [u32; 4], data: &[u8], out: &mut [u8])
    requires { 16 * (length «data».now / 16 + 1) ≤ length out.old }
    ensures { out.new ≡ over (cbc_seal rk (unwords iv) «data».now) out.old }
{
    let at = data.len() - data.len() % 16;
    let s = encrypt_blocks(engine, rk, iv, &data[..at], out);
    let last = padding::pad(&data[at..]);
    Sealing::step(engine, rk, s, &last, &mut out[at..]);
}

// Full blocks of `data` from the front on, decrypted in batches, where the gates do the work. Returns how many bytes. The block before the
// first is no part of the message, so the first goes by itself. (`sliced::next_batch` says only that a batch fits, and not how long it is,
// as docs/PROMISES.md has it: a `for` knows no step. Cfb has such a loop with the two slices changed about, in `stream`; what both share
// stands in `sliced` and `walk`.)
fn decrypt_batches(
    engine: Engine,
    back: [u32; 32],
    iv: [u32; 4],
    data: &[u8],
    out: &mut [u8],
) -> usize
    requires { length «data».now ≤ length out.old }
    ensures result_value { result % 16 ≡ 0 }
    ensures reached { Reached (cbc_decrypt (reverse back)) (unwords iv) «data».now out.old (take 16 (drop result (unwords iv ++ «data».now))) out.new result }
{
    if engine != Engine::Gates || data.len() < LEAST {
        return 0;
    }
    Opening::step(engine, back, iv, data, out);
    let mut at: usize = 16;
    while LEAST <= data.len() - at {
        let m = sliced::next_batch(data.len() - at);
        sliced::encrypt_xored(back, m, &data[at..], &data[at - 16..], &mut out[at..]);
        at += 16 * m;
    }
    at
}

// The first m blocks of `data`, decrypted side by side to the front of `out`. (`few` of `stream` has the two slices changed about.)
fn decrypt_few(back: [u32; 32], iv: [u32; 4], m: usize, data: &[u8], out: &mut [u8])
    requires { (m ≤ 64) × (16 * m ≤ length «data».now) × (16 * m ≤ length out.old) }
    ensures { out.new ≡ over (cat m (λ i. (cbc_decrypt (reverse back)).block (stepped (cbc_decrypt (reverse back)) i (unwords iv) «data».now) (block_at «data».now i))) out.old }
{
    let mut before = [0u8; 1024];
    sixteen::lay_before(iv, data, m, &mut before);
    let mut pads = [0u8; 1024];
    sixteen::encrypt(back, m, data, &mut pads);
    let n = 16 * m;
    sixteen::xor_bytes(&pads, &before[..n], out);
}

// The full blocks of `data`, decrypted 64 at a time to the front of `out`. Returns the state after them.
fn decrypt_side_by_side(back: [u32; 32], iv: [u32; 4], data: &[u8], out: &mut [u8]) -> [u32; 4]
    requires { length «data».now ≤ length out.old }
    ensures result_value { unwords result ≡ end_state (cbc_decrypt (reverse back)) (unwords iv) «data».now }
    ensures out_after { out.new ≡ over (chain (cbc_decrypt (reverse back)) (unwords iv) «data».now) out.old }
{
    let turns = data.len() / 1024;
    for i in 0..turns {
        let at = 1024 * i;
        let s = sixteen::block_before(iv, data, at);
        decrypt_few(back, s, 64, &data[at..], &mut out[at..]);
    }
    let at = 1024 * turns;
    let m = data.len() % 1024 / 16;
    let s = sixteen::block_before(iv, data, at);
    decrypt_few(back, s, m, &data[at..], &mut out[at..]);
    sixteen::block_before(iv, data, at + 16 * m)
}

// What the batches left of a message.
fn decrypt_rest(
    engine: Engine,
    back: [u32; 32],
    iv: [u32; 4],
    data: &[u8],
    out: &mut [u8],
) -> [u32; 4]
    requires { length «data».now ≤ length out.old }
    ensures result_value { unwords result ≡ end_state (cbc_decrypt (reverse back)) (unwords iv) «data».now }
    ensures out_after { out.new ≡ over (chain (cbc_decrypt (reverse back)) (unwords iv) «data».now) out.old }
{
    if engine == Engine::Gates {
        decrypt_side_by_side(back, iv, data, out)
    } else {
        one_by_one::<Opening>(engine, back, iv, data, out)
    }
}

// The full blocks of `data`, decrypted to the front of `out` by the round keys turned round. Returns the state after them,
// with which a message goes on.
pub fn decrypt_blocks(
    engine: Engine,
    back: [u32; 32],
    iv: [u32; 4],
    data: &[u8],
    out: &mut [u8],
) -> [u32; 4]
    requires { length «data».now ≤ length out.old }
    ensures result_value { unwords result ≡ end_state (cbc_decrypt (reverse back)) (unwords iv) «data».now }
    ensures out_after { out.new ≡ over (chain (cbc_decrypt (reverse back)) (unwords iv) «data».now) out.old }
{
    let at = decrypt_batches(engine, back, iv, data, out);
    let s = sixteen::block_before(iv, data, at);
    decrypt_rest(engine, back, s, &data[at..], &mut out[at..])
}

// The last block of `data`, decrypted.
fn last_block(engine: Engine, back: [u32; 32], iv: [u32; 4], data: &[u8]) -> [u8; 16]
    requires in_bounds { 16 ≤ length «data».now }
    requires data_len { length «data».now % 16 ≡ 0 }
    ensures { result ≡ drop (length «data».now - 16) (chain (cbc_decrypt (reverse back)) (unwords iv) «data».now) }
{
    let at = data.len() - 16;
    let p = cipher::encrypt(engine, back, block::split_block(&data[at..]));
    block::combine_block(block::block_xor(p, sixteen::block_before(iv, data, at)))
}

// The first `n` bytes of a block, to the front of `out`.
fn put_front(b: [u8; 16], n: usize, out: &mut [u8])
    requires n_bound { n ≤ 16 }
    requires n_in_bounds { n ≤ length out.old }
    ensures { out.new ≡ take n b ++ drop n out.old }
{
    out[..n].copy_from_slice(&b[..n]);
}

// Opens `data` into the front of `out`. The padding is settled before a byte is written, and its bytes are not written.
pub fn decrypt(
    engine: Engine,
    rk: [u32; 32],
    iv: [u32; 4],
    data: &[u8],
    out: &mut [u8],
) -> Result<usize, BadPadding>
    requires in_bounds { 16 ≤ length «data».now }
    requires data_len { length «data».now % 16 ≡ 0 }
    requires data_in_bounds { length «data».now ≤ length out.old }
    ensures value { result ≡ unpadded (cbc_text rk (unwords iv) «data».now) }
    ensures out_after { out.new ≡ opened_into (cbc_text rk (unwords iv) «data».now) out.old }
{
    let back = cipher::reversed(rk);
    let last = last_block(engine, back, iv, data);
    let keep = padding::unpad(last)?;
    let at = data.len() - 16;
    decrypt_blocks(engine, back, iv, &data[..at], out);
    put_front(last, keep, &mut out[at..]);
    Ok(at + keep)
}
