// GCM: libsm's `gcm_encrypt` and `gcm_decrypt`, over round keys, H and J0. The IV is the caller's: J0 is made of it once.

#![tactic(auto)]

ghost use Rattle.std.specs.Prelude.{◌≡◌, ◌⊎◌, true, false, List, ◌++◌, ℕ, ◌+◌, ◌-◌, ◌*◌, ◌<◌, ◌≤◌, length, take, drop, IfSome};
ghost use Rattle.block.specs.Blocks.{cat};
ghost use Rattle.block.specs.Same.{same};
ghost use Rattle.block.specs.Wide.{value};
ghost use Rattle.block.specs.Words.{unwords};
ghost use Rattle.counter.specs.Counter.{jumped};
ghost use Rattle.ghash.specs.Ghash.{Hashable, blocks};
ghost use Rattle.ghash.specs.Joined.{HalfOf};
ghost use Rattle.block.specs.Over.{over};
ghost use Rattle.gcm.specs.Gcm.{hash_key, nonce_counter, hashed_counter, first_counter, J0, masked_tag, tag_of, sealed, text_part, tag_part, opens_under, text_into};
ghost use Rattle.gcm.specs.Pads.{PadsFor};

use block::U128;
use cipher::Engine;
use ghash::halves;
use ghash::halves::Half;
use stream::Kind;

// H, the cipher of sixteen zero bytes.
pub fn hash_key(engine: Engine, rk: [u32; 32]) -> U128
    ensures { value result ≡ hash_key rk }
{
    block::to_u128(cipher::encrypt(engine, rk, [0u32; 4]))
}

// J0 of a 12-byte IV.
fn nonce_counter(iv: &[u8]) -> [u32; 4]
    requires { length iv.now ≡ 12 }
    ensures { unwords result ≡ nonce_counter iv.now }
{
    [
        block::word_at(iv, 0),
        block::word_at(iv, 4),
        block::word_at(iv, 8),
        1,
    ]
}

// J0 of a 16-byte IV. The blocks of an empty label and the IV are the two that J0 is the hash of.
fn hashed_counter(h: U128, iv: &[u8]) -> [u32; 4]
    requires { length iv.now ≡ 16 }
    ensures { unwords result ≡ hashed_counter (value h) iv.now }
{
    block::from_u128(ghash::galois_hash(h, &[], iv))
}

// J0 of an IV of twelve or of sixteen bytes. (That it is one of these stays a clause: public calls ask it of a slice.)
pub fn first_counter(h: U128, iv: &[u8]) -> [u32; 4]
    requires { (length iv.now ≡ 12) ⊎ (length iv.now ≡ 16) }
    ensures { unwords result ≡ first_counter (value h) iv.now }
{
    if iv.len() == 12 {
        nonce_counter(iv)
    } else {
        hashed_counter(h, iv)
    }
}

// The tag of a label and a text under a mask. (That lengths are hashable stays a clause, here and below: public calls ask it of slices, and
// a type of its own would only be made there to be taken apart here.)
fn masked_tag(mask: [u32; 4], h: U128, aad: &[u8], text: &[u8]) -> [u32; 4]
    requires { Hashable (length aad.now) × Hashable (length text.now) }
    ensures { unwords result ≡ masked_tag (unwords mask) (value h) aad.now text.now }
{
    let hash = block::from_u128(ghash::galois_hash(h, aad, text));
    block::block_xor(mask, hash)
}

fn tag(engine: Engine, rk: [u32; 32], h: U128, j0: [u32; 4], aad: &[u8], text: &[u8]) -> [u32; 4]
    requires { Hashable (length aad.now) × Hashable (length text.now) }
    ensures { unwords result ≡ tag_of rk (value h) (unwords j0) aad.now text.now }
{
    let mask = cipher::encrypt(engine, rk, j0);
    masked_tag(mask, h, aad, text)
}

// Whether a text of n bytes goes in one batch with the zero block and J0: on the gates, where all are at most 32 blocks.
fn in_one_batch(engine: Engine, n: usize) -> bool
    ensures { result ≡ true → n < 480 }
{
    engine == Engine::Gates && n < 480
}

// J0 and the counters behind it, m in all, behind the first block of `out`.
fn lay_behind(j0: [u32; 4], m: usize, out: &mut [u8])
    requires { (m ≤ 65) × (16 * m + 16 ≤ length out.old) }
    ensures { out.new ≡ take 16 out.old ++ over (cat m (jumped false (unwords j0))) (drop 16 out.old) }
{
    stream::few::lay_counters(false, j0, m, &mut out[16..]);
}

// The ciphers of the zero block, of J0 and of the counters behind it, for a text of n bytes: H, the mask of its tag, and what it is xored
// with.
fn pads_from(rk: [u32; 32], j0: [u32; 4], n: usize) -> [u8; 512]
    requires { n < 480 }
    ensures { PadsFor rk (unwords j0) n result }
{
    let m = n / 16 + 2;
    let mut states = [0u8; 512];
    lay_behind(j0, m, &mut states);
    let mut pads = [0u8; 512];
    sixteen::encrypt(rk, m + 1, &states, &mut pads);
    pads
}

// What a message starts with: H, J0, and, where they are ready, the pads of its text. (No `==` and no `Debug`: H and the pads are secret.)
#[derive(Clone, Copy)]
pub struct Begun {
    pub h: U128,
    pub j0: [u32; 4],
    pub pads: Option<[u8; 512]>,
}

// The start of a message with a text of n bytes. J0 of a 12-byte IV does not wait for H: all blocks go in one batch.
pub fn start(engine: Engine, rk: [u32; 32], iv: &[u8], n: usize) -> Begun
    requires { (length iv.now ≡ 12) ⊎ (length iv.now ≡ 16) }
    ensures h_value { value result.h ≡ hash_key rk }
    ensures j0_value { unwords result.j0 ≡ J0 rk iv.now }
    ensures pads_for { IfSome result.pads (λ pads. PadsFor rk (unwords result.j0) n pads) }
{
    let short = in_one_batch(engine, n);
    if short && iv.len() == 12 {
        let j0 = nonce_counter(iv);
        let pads = pads_from(rk, j0, n);
        return Begun {
            h: block::to_u128(block::split_block(&pads)),
            j0,
            pads: Some(pads),
        };
    }
    let h = hash_key(engine, rk);
    let j0 = first_counter(h, iv);
    let pads = if short {
        Some(pads_from(rk, j0, n))
    } else {
        None
    };
    Begun { h, j0, pads }
}

// Seals a short text by its pads.
fn encrypt_short(h: U128, pads: &[u8], aad: &[u8], data: &[u8], out: &mut [u8])
    requires data_in_bounds { length «data».now + 32 ≤ length pads.now }
    requires hashable { Hashable (length aad.now) × Hashable (length «data».now) }
    requires data_in_bounds_2 { length «data».now + 16 ≤ length out.old }
    ensures { (rk j : List ℕ) → PadsFor rk j (length «data».now) pads.now → out.new ≡ over (sealed rk (value h) j aad.now «data».now) out.old }
{
    let n = data.len();
    let mask = block::split_block(&pads[16..]);
    sixteen::xor_bytes(&pads[32..], data, out);
    let mac = masked_tag(mask, h, aad, &out[..n]);
    block::put_block(mac, &mut out[n..]);
}

// Seals `data` under the label `aad`: ciphertext, then tag. A text whose pads are lent goes by them. (Engine and round keys come apart, as
// `cipher` and `stream` take them: the keys by value are one of the nine forms, docs/DECISIONS.md.)
pub fn encrypt(
    engine: Engine,
    rk: [u32; 32],
    h: U128,
    j0: [u32; 4],
    pads: Option<&[u8]>,
    aad: &[u8],
    data: &[u8],
    out: &mut [u8],
)
    requires pads_for { IfSome pads (λ lent. PadsFor rk (unwords j0) (length «data».now) lent.now) }
    requires hashable { Hashable (length aad.now) × Hashable (length «data».now) }
    requires data_in_bounds { length «data».now + 16 ≤ length out.old }
    ensures { out.new ≡ over (sealed rk (value h) (unwords j0) aad.now «data».now) out.old }
{
    if let Some(lent) = pads {
        encrypt_short(h, lent, aad, data, out);
        return;
    }
    let n = data.len();
    let first = counter::gcm_block_add_one(j0).counter;
    stream::stream(engine, rk, Kind::Gctr, first, false, data, out);
    let mac = tag(engine, rk, h, j0, aad, &out[..n]);
    block::put_block(mac, &mut out[n..]);
}

// The text part of a sealed message. (That this has a tag, 16 bytes, stays a clause, here and below: public calls ask it of a slice.)
pub fn text_part(data: &[u8]) -> &[u8]
    requires { 16 ≤ length «data».now }
    ensures { result.now ≡ text_part «data».now }
{
    &data[..data.len() - 16]
}

// The tag part, its last sixteen bytes.
pub fn tag_part(data: &[u8]) -> &[u8]
    requires { 16 ≤ length «data».now }
    ensures { result.now ≡ tag_part «data».now }
{
    &data[data.len() - 16..]
}

// Whether sixteen bytes are this tag. All of them are looked at, whatever the first ones are: the differences are added up, since of an
// `|` of them the back end can make a jump for each.
pub fn is_tag(bytes: &[u8], expected: [u32; 4]) -> bool
    requires { length bytes.now ≡ 16 }
    ensures { result ≡ same bytes.now (unwords expected) }
{
    let d = block::block_xor(block::split_block(bytes), expected);
    d[0] as u64 + d[1] as u64 + d[2] as u64 + d[3] as u64 == 0
}

// Whether a sealed message has this tag.
fn has_tag(data: &[u8], expected: [u32; 4]) -> bool
    requires { 16 ≤ length «data».now }
    ensures { result ≡ same (tag_part «data».now) (unwords expected) }
{
    is_tag(tag_part(data), expected)
}

// Whether a sealed message opens under a label.
pub fn opens(engine: Engine, rk: [u32; 32], h: U128, j0: [u32; 4], aad: &[u8], data: &[u8]) -> bool
    requires hashable { Hashable (length aad.now) × Hashable (length «data».now) }
    requires in_bounds { 16 ≤ length «data».now }
    ensures { result ≡ opens_under rk (value h) (unwords j0) aad.now «data».now }
{
    has_tag(data, tag(engine, rk, h, j0, aad, text_part(data)))
}

// The same by the cipher of J0, where the text has been hashed before: for a message that is asked about under many labels.
pub fn opens_after(mask: [u32; 4], h: U128, half: Half, aad: &[u8], data: &[u8]) -> bool
    requires hashable { Hashable (length aad.now) × Hashable (length «data».now) }
    requires in_bounds { 16 ≤ length «data».now }
    requires half_of { HalfOf (value h) (blocks (text_part «data».now)) half }
    ensures { result ≡ same (tag_part «data».now) (masked_tag (unwords mask) (value h) aad.now (text_part «data».now)) }
{
    let hash = halves::galois_hash_after(h, aad, text_part(data), half);
    has_tag(data, block::block_xor(mask, block::from_u128(hash)))
}

// Opens a sealed message with a short text, by its pads. Returns whether it opens.
fn decrypt_short(h: U128, pads: &[u8], aad: &[u8], data: &[u8], out: &mut [u8]) -> bool
    requires hashable { Hashable (length aad.now) × Hashable (length «data».now) }
    requires in_bounds { (16 ≤ length «data».now) × (length «data».now + 16 ≤ length pads.now) × (length «data».now - 16 ≤ length out.old) }
    ensures { (rk j : List ℕ) → PadsFor rk j (length «data».now - 16) pads.now → (result ≡ opens_under rk (value h) j aad.now «data».now) × (out.new ≡ text_into rk (value h) j aad.now «data».now out.old) }
{
    let text = text_part(data);
    let mask = block::split_block(&pads[16..]);
    if has_tag(data, masked_tag(mask, h, aad, text)) {
        sixteen::xor_bytes(&pads[32..], text, out);
        return true;
    }
    false
}

// Opens a sealed message: the text, once the tag is settled; otherwise `out` stays as it is. Returns whether it opens. A text whose pads
// are lent goes by them.
pub fn decrypt(
    engine: Engine,
    rk: [u32; 32],
    h: U128,
    j0: [u32; 4],
    pads: Option<&[u8]>,
    aad: &[u8],
    data: &[u8],
    out: &mut [u8],
) -> bool
    requires pads_for { IfSome pads (λ lent. PadsFor rk (unwords j0) (length «data».now - 16) lent.now) }
    requires hashable { Hashable (length aad.now) × Hashable (length «data».now) }
    requires in_bounds { (16 ≤ length «data».now) × (length «data».now - 16 ≤ length out.old) }
    ensures value { result ≡ opens_under rk (value h) (unwords j0) aad.now «data».now }
    ensures out_after { out.new ≡ text_into rk (value h) (unwords j0) aad.now «data».now out.old }
{
    if let Some(lent) = pads {
        return decrypt_short(h, lent, aad, data, out);
    }
    let opened = opens(engine, rk, h, j0, aad, data);
    if opened {
        let first = counter::gcm_block_add_one(j0).counter;
        stream::stream(engine, rk, Kind::Gctr, first, false, text_part(data), out);
    }
    opened
}
