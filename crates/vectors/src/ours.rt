// Whether the product's crates give a published vector, both ways where there are two.
use crate::file::{Kind, Vector};
use cipher_mode::answer::Answer;
use cipher_mode::{CipherMode, Direction, Sm4Cipher, Sm4CipherMode};

// The number of every key here: a vector's key has none, and a record wants one.
const NUMBER: u32 = 1;

// A block put through the cipher so many times. A refusal leaves `x`, which then differs.
fn over(cipher: Sm4Cipher, direction: Direction, times: u32, block_in: &[u8]) -> [u8; 16] {
    let mut x = [0; 16];
    cipher.call(direction, block_in, &mut x);
    for _ in 1..times {
        let before = x;
        cipher.call(direction, &before, &mut x);
    }
    x
}

// A block, there and back.
fn block_vector(vector: &Vector<'_>, times: u32) -> bool {
    let cipher = Sm4Cipher::new(vector.key, NUMBER);
    over(cipher, Direction::Encrypt, times, vector.text).as_slice() == vector.expected
        && over(cipher, Direction::Decrypt, times, vector.expected).as_slice() == vector.text
}

// What a call wrote; nothing where it was refused.
fn written(answer: Answer, out: &[u8]) -> &[u8] {
    match answer.ending {
        Ok(done) => &out[..done.length.min(out.len())],
        Err(_) => &[],
    }
}

// A mode, there and back by the public calls.
fn mode_vector(vector: &Vector<'_>, mode: CipherMode) -> bool {
    let keyed = Sm4CipherMode::new(vector.key, NUMBER, mode);
    let mut there = [0; 512];
    let sealed = keyed.encrypt(vector.label, vector.text, vector.iv, &mut there);
    let made = written(sealed, &there);
    let mut back = [0; 512];
    let opened = keyed.decrypt(vector.label, made, vector.iv, &mut back);
    is_result(mode, made, vector.expected) && written(opened, &back) == vector.text
}

// Whether what was sealed is the published result: in Gcm ciphertext and tag, and in Cbc without the padding block that was sealed
// after it.
fn is_result(mode: CipherMode, made: &[u8], expected: &[u8]) -> bool {
    match mode {
        CipherMode::Cbc => made.len() == expected.len() / 16 * 16 + 16
            && made.starts_with(expected),
        _ => made == expected,
    }
}

// The hash of label and text with the length block.
fn hash_vector(vector: &Vector<'_>) -> bool {
    if vector.key.len() != 16 || vector.label.len() > 255 || vector.text.len() > 255 {
        return false;
    }
    let h = block::to_u128(block::split_block(vector.key));
    let hash = ghash::galois_hash(h, vector.label, vector.text);
    block::combine_block(block::from_u128(hash)).as_slice() == vector.expected
}

// Whether ours gives the published result of a vector.
pub(crate) fn gives(vector: &Vector<'_>) -> bool {
    match vector.kind {
        Kind::Cfb => mode_vector(vector, CipherMode::Cfb),
        Kind::Ofb => mode_vector(vector, CipherMode::Ofb),
        Kind::Ctr => mode_vector(vector, CipherMode::Ctr),
        Kind::Cbc => mode_vector(vector, CipherMode::Cbc),
        Kind::Gcm | Kind::Unknown => mode_vector(vector, CipherMode::Gcm),
        Kind::Block => block_vector(vector, 1),
        Kind::Million => block_vector(vector, 1_000_000),
        Kind::Hash => hash_vector(vector),
    }
}
