// A key's record, as a host holds it. A host can put anything into one, and each value has its answer.
ghost use Rattle.std.specs.Prelude.{◌≡◌};
ghost use Rattle.cipher_mode.specs.Key.{key_head};
ghost use Rattle.luossavin.specs.Key.{key_answer_of, cipher_in, key_of, host_key_new, host_key_retire, engine_mark, host_key_engine};

use cipher_mode::{KeyAnswer, Sm4Cipher};

// It stands for `Sm4Cipher`, whose answer is an enum and whose mark is a bool, for which a host may hand over any number.
#[repr(C)]
#[derive(Clone, Copy)]
pub struct LuossavinKey {
    pub round_keys: [u32; 32],
    pub answer: u32,
    pub number: u16,
    pub retired: u8,
    pub engine: u8,
}

// Number and answer are types of other crates, so this and the way back are no `From`.
#[tactic(auto, unfolding(crate::specs::Key::key_answer_of))]
fn key_answer_of(answer: u32) -> KeyAnswer
    ensures { result ≡ key_answer_of answer }
{
    match answer {
        0 => KeyAnswer::Key,
        13 => KeyAnswer::WrongNumber,
        _ => KeyAnswer::ErrorBlockSize,
    }
}

// The record that the calls of `cipher_mode` take.
impl From<LuossavinKey> for Sm4Cipher {
    ghost from_gives = { λ key cipher. cipher ≡ cipher_in key };

    #[tactic(auto, unfolding(crate::specs::Key::cipher_in))]
    fn from(key: LuossavinKey) -> Sm4Cipher {
        // a variable of its own: the borrow checker takes no array right from a field into a literal
        let rk = key.round_keys;
        Sm4Cipher {
            rk,
            answer: key_answer_of(key.answer),
            number: key.number,
            retired: key.retired != 0,
            engine: key.engine,
        }
    }
}

// The record that a host is handed.
impl From<Sm4Cipher> for LuossavinKey {
    ghost from_gives = { λ cipher key. key ≡ key_of cipher };

    #[tactic(auto, using(crate::proofs::Marks::mark_byte), unfolding(crate::specs::Key::key_of))]
    fn from(cipher: Sm4Cipher) -> LuossavinKey {
        let round_keys = cipher.rk;
        LuossavinKey {
            round_keys,
            answer: answer_number(cipher.answer),
            number: cipher.number,
            retired: cipher.retired as u8,
            engine: cipher.engine,
        }
    }
}

// The number of a key's answer.
fn answer_number(answer: KeyAnswer) -> u32
    ensures { result ≡ (key_head answer).number }
{
    match answer {
        KeyAnswer::Key => 0,
        KeyAnswer::ErrorBlockSize => 1,
        KeyAnswer::WrongNumber => 13,
    }
}

#[tactic(auto, unfolding(crate::specs::Key::host_key_new))]
#[unsafe(no_mangle)]
pub extern "C" fn luossavin_key_new(key: &[u8], number: u32) -> LuossavinKey
    ensures { result ≡ host_key_new key.now number }
{
    LuossavinKey::from(Sm4Cipher::new(key, number))
}

// A key is retired, and what is no key comes back as it was.
#[tactic(auto, unfolding(crate::specs::Key::host_key_retire))]
#[unsafe(no_mangle)]
pub extern "C" fn luossavin_key_retire(key: LuossavinKey) -> LuossavinKey
    ensures { result ≡ host_key_retire key }
{
    if key.answer == 0 {
        LuossavinKey { retired: 1, ..key }
    } else {
        key
    }
}

// The mark of an engine: 1 is the four tables, 2 the gates, 3 the plain engine, and all else leaves the choice to the library.
fn mark_of(engine: u32) -> u8
    ensures { result ≡ engine_mark engine }
{
    if engine > 3 { 0 } else { engine as u8 }
}

// The record with an engine. Nothing else of it changes.
#[tactic(auto, unfolding(crate::specs::Key::host_key_engine))]
#[unsafe(no_mangle)]
pub extern "C" fn luossavin_key_engine(key: LuossavinKey, engine: u32) -> LuossavinKey
    ensures { result ≡ host_key_engine key engine }
{
    LuossavinKey {
        engine: mark_of(engine),
        ..key
    }
}
