// The public calls of libsm's `cipher.rs` and `cipher_mode.rs`. None has a `requires`: whatever the inputs are, the contract
// gives the whole outcome, by one definition of `specs/Calls.antt`.

#![tactic(auto)]

pub mod answer;
pub mod checks;
mod work;

ghost use Rattle.std.specs.Prelude.{◌≡◌};
ghost use Rattle.cipher_mode.specs.Answer.{ended, outcome};
ghost use Rattle.cipher_mode.specs.Key.{no_cipher, new_cipher, retire, with_engine, number_in, new_cipher_mode};
ghost use Rattle.cipher_mode.specs.Engines.{forwards, waits, engine_for};
ghost use Rattle.cipher_mode.specs.Tables.{mode_of, mode_numbered};
ghost use Rattle.cipher_mode.specs.Calls.{block_ended, block_call, mode_ended, mode_call};

use answer::{Answer, Refusal};
use checks::Lengths;
use cipher::Engine;
use work::Message;

// What was done: how many bytes are the result, and whether the counter of the message came round.
#[derive(Clone, Copy, PartialEq, Eq, Debug)]
pub struct Done {
    pub length: usize,
    pub came_round: bool,
}

// What setting up a key answers.
#[derive(Clone, Copy, PartialEq, Eq, Debug)]
pub enum KeyAnswer {
    Key,
    ErrorBlockSize,
    WrongNumber,
}

// Round keys, beside the answer that says whether they are a key's, one of the nine forms (docs/DECISIONS.md); the key's number, whether
// it is retired, and the mark of the engine that its rounds go by, which no outcome tells: the host's own number, kept as it came. No
// Debug and no `==`, since it holds a key.
#[derive(Clone, Copy)]
pub struct Sm4Cipher {
    pub rk: [u32; 32],
    pub answer: KeyAnswer,
    pub number: u16,
    pub retired: bool,
    pub engine: u8,
}

#[derive(Clone, Copy, PartialEq, Eq, Debug)]
pub enum CipherMode {
    Cfb,
    Ofb,
    Ctr,
    Cbc,
    Gcm,
}

#[derive(Clone, Copy, PartialEq, Eq, Debug)]
pub enum Direction {
    Encrypt,
    Decrypt,
}

// A key's record with the mode that it is used in.
#[derive(Clone, Copy)]
pub struct Sm4CipherMode {
    pub cipher: Sm4Cipher,
    pub mode: CipherMode,
}

// The number that the answers repeat of a record with this answer: 0 where no key stands, as in the host's structs. Answer and number
// come apart, as its definition `number_in` has them.
pub fn number_in(answer: KeyAnswer, number: u16) -> u16
    ensures { result ≡ number_in answer number }
{
    match answer {
        KeyAnswer::Key => number,
        KeyAnswer::ErrorBlockSize | KeyAnswer::WrongNumber => 0,
    }
}

// The mode of a number; 4 and above are Gcm, and who has a number refuses what is above. No From: it
// would bring a `TryFrom` of its own, which cannot stand beside the one that refuses.
#[tactic(auto, unfolding(crate::specs::Tables::mode_of))]
pub fn mode_of(mode: u32) -> CipherMode
    ensures { result ≡ mode_of mode }
{
    match mode {
        0 => CipherMode::Cfb,
        1 => CipherMode::Ofb,
        2 => CipherMode::Ctr,
        3 => CipherMode::Cbc,
        _ => CipherMode::Gcm,
    }
}

// A number that is no mode's.
#[derive(Clone, Copy, PartialEq, Eq, Debug)]
pub struct BadMode;

impl TryFrom<u32> for CipherMode {
    type Error = BadMode;

    ghost try_from_gives = { λ number r. r ≡ mode_numbered number };

    fn try_from(number: u32) -> Result<CipherMode, BadMode> {
        match number {
            0..=4 => Ok(mode_of(number)),
            _ => Err(BadMode),
        }
    }
}

fn forwards(direction: Direction) -> bool
    ensures { result ≡ forwards direction }
{
    matches!(direction, Direction::Encrypt)
}

// Whether each block of a message waits for the one before it.
fn waits(mode: CipherMode, direction: Direction) -> bool
    ensures { result ≡ waits mode direction }
{
    match mode {
        CipherMode::Cfb | CipherMode::Cbc => forwards(direction),
        CipherMode::Ofb => true,
        CipherMode::Ctr | CipherMode::Gcm => false,
    }
}

// The engine that a message goes by under a mark.
pub fn engine_for(mark: u8, mode: CipherMode, direction: Direction) -> Engine
    ensures { result ≡ engine_for mark mode direction }
{
    cipher::engine_of(mark, waits(mode, direction))
}

// A record that every call refuses.
fn no_cipher(answer: KeyAnswer) -> Sm4Cipher
    ensures { result ≡ no_cipher answer }
{
    Sm4Cipher {
        rk: [0u32; 32],
        answer,
        number: 0,
        retired: false,
        engine: 0,
    }
}

impl Sm4Cipher {
    // The record of a new key: 16 bytes, and a number from 1 to 65,535.
    #[tactic(auto, unfolding(crate::specs::Key::new_cipher))]
    pub fn new(key: &[u8], number: u32) -> Sm4Cipher
        ensures { result ≡ new_cipher key.now number }
    {
        if key.len() != 16 {
            return no_cipher(KeyAnswer::ErrorBlockSize);
        }
        match u16::try_from(number) {
            Ok(number) if number != 0 => Sm4Cipher {
                rk: cipher::key_schedule(key),
                answer: KeyAnswer::Key,
                number,
                retired: false,
                engine: 0,
            },
            _ => no_cipher(KeyAnswer::WrongNumber),
        }
    }

    // The record retired: it decrypts and encrypts no more. There is no way back. What is no key stays what it was.
    #[tactic(auto, unfolding(crate::specs::Key::retire))]
    pub fn retire(self) -> Sm4Cipher
        ensures { result ≡ retire self }
    {
        let answer = self.answer;
        let KeyAnswer::Key = answer else {
            return self;
        };
        Sm4Cipher {
            retired: true,
            ..self
        }
    }

    // The record with the mark of an engine: `cipher::FOUR_TABLES`, `cipher::GATES` or `cipher::PLAIN`, and under all else the library
    // chooses.
    #[tactic(auto, unfolding(crate::specs::Key::with_engine))]
    pub fn with_engine(self, engine: u8) -> Sm4Cipher
        ensures { result ≡ with_engine engine self }
    {
        Sm4Cipher { engine, ..self }
    }

    // One block, either way, to the front of `out`.
    #[tactic(auto, unfolding(crate::specs::Calls::block_call))]
    pub fn call(self, direction: Direction, block_in: &[u8], out: &mut [u8]) -> Answer
        ensures { outcome result out.new ≡ block_call direction self block_in.now out.old }
    {
        Answer {
            ending: self.ciphered(direction, block_in, out),
            key: number_in(self.answer, self.number),
        }
    }

    fn ciphered(
        self,
        direction: Direction,
        block_in: &[u8],
        out: &mut [u8],
    ) -> Result<Done, Refusal>
        ensures { ended result out.new ≡ block_ended direction self block_in.now out.old }
    {
        checks::block(
            self.answer,
            self.retired,
            direction,
            block_in.len(),
            out.len(),
        )?;
        work::block(self.engine, self.rk, direction, block_in, out);
        Ok(Done {
            length: 16,
            came_round: false,
        })
    }

    // One block, encrypted to the front of `out`.
    pub fn encrypt(self, block_in: &[u8], out: &mut [u8]) -> Answer
        ensures { outcome result out.new ≡ block_call Direction.Encrypt self block_in.now out.old }
    {
        self.call(Direction::Encrypt, block_in, out)
    }

    // One block, decrypted to the front of `out`.
    pub fn decrypt(self, block_in: &[u8], out: &mut [u8]) -> Answer
        ensures { outcome result out.new ≡ block_call Direction.Decrypt self block_in.now out.old }
    {
        self.call(Direction::Decrypt, block_in, out)
    }
}

impl Sm4CipherMode {
    #[tactic(auto, unfolding(crate::specs::Key::new_cipher_mode))]
    pub fn new(key: &[u8], number: u32, mode: CipherMode) -> Sm4CipherMode
        ensures { result ≡ new_cipher_mode key.now number mode }
    {
        let cipher = Sm4Cipher::new(key, number);
        Sm4CipherMode { cipher, mode }
    }

    // A message, either way, to the front of `out`: everything that can be told of the record, the mode and the lengths is
    // settled before any work.
    #[tactic(auto, unfolding(crate::specs::Calls::mode_call))]
    pub fn call(
        self,
        direction: Direction,
        aad: &[u8],
        data: &[u8],
        iv: &[u8],
        out: &mut [u8],
    ) -> Answer
        ensures { outcome result out.new ≡ mode_call direction self aad.now «data».now iv.now out.old }
    {
        Answer {
            ending: self.worked(direction, aad, data, iv, out),
            key: number_in(self.cipher.answer, self.cipher.number),
        }
    }

    fn worked(
        self,
        direction: Direction,
        aad: &[u8],
        data: &[u8],
        iv: &[u8],
        out: &mut [u8],
    ) -> Result<Done, Refusal>
        ensures { ended result out.new ≡ mode_ended direction self aad.now «data».now iv.now out.old }
    {
        let cipher = self.cipher;
        let lengths = Lengths {
            iv: iv.len(),
            label: aad.len(),
            data: data.len(),
            room: out.len(),
        };
        checks::message(cipher.answer, cipher.retired, direction, self.mode, lengths)?;
        // A variable: with the field right in the literal the borrow checker does not cover this function.
        let rk = cipher.rk;
        let message = Message {
            engine: engine_for(cipher.engine, self.mode, direction),
            rk,
            direction,
            aad,
            data,
            iv,
        };
        message.by_mode(self.mode, out)
    }

    // Encrypts `data` to the front of `out`, under the label `aad` in Gcm. The other modes do not look at `aad`.
    pub fn encrypt(self, aad: &[u8], data: &[u8], iv: &[u8], out: &mut [u8]) -> Answer
        ensures { outcome result out.new ≡ mode_call Direction.Encrypt self aad.now «data».now iv.now out.old }
    {
        self.call(Direction::Encrypt, aad, data, iv, out)
    }

    // Decrypts `data` to the front of `out`. In Gcm and Cbc nothing is written before tag or padding is settled.
    pub fn decrypt(self, aad: &[u8], data: &[u8], iv: &[u8], out: &mut [u8]) -> Answer
        ensures { outcome result out.new ≡ mode_call Direction.Decrypt self aad.now «data».now iv.now out.old }
    {
        self.call(Direction::Decrypt, aad, data, iv, out)
    }
}
