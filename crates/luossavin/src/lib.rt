// The host boundary: what a host in C or Rust links, declared in `include/luossavin.h`. Every call ends with an answer, and
// none has a `requires`: a host that breaks one could not be told. A struct of the crates below crosses as it is where its layout is
// the header's. One that holds an enum, a bool, an `Option` or a `Result` cannot: a struct of numbers stands
// for it here.

#![tactic(auto)]

mod edition;
mod halves;
mod in_pieces;
mod journals;
pub mod key;
mod shelves;
mod which;
mod workers;

ghost use Rattle.std.specs.Prelude.{◌≡◌};
ghost use Rattle.cipher_mode.specs.Outcome.{under, refusal};
ghost use Rattle.cipher_mode.specs.Answer.{head_of};
ghost use Rattle.luossavin.specs.Host.{head_in, reported, mode_in, host_block_call, host_mode_call};

use cipher_mode::answer::Answer;
use cipher_mode::{CipherMode, Direction, Sm4Cipher, Sm4CipherMode, answer};
use key::LuossavinKey;

// The number, how many bytes were missing where that is refusal 9, 1 where the counter of a message came round, the number
// of the key that stands, and how many bytes of the output are the result.
#[repr(C)]
#[derive(Clone, Copy)]
pub struct LuossavinAnswer {
    pub number: u32,
    pub missing: u8,
    pub came_round: u8,
    pub key: u16,
    pub length: usize,
}

// The one refusal that is the boundary's own.
const BAD_MODE: u32 = 7;

// An answer that is a number of the header alone, on a key with this number.
pub(crate) fn numbered(number: u32, key: u16) -> LuossavinAnswer
    ensures { head_in result ≡ under key (refusal number) }
{
    LuossavinAnswer {
        number,
        missing: 0,
        came_round: 0,
        key,
        length: 0,
    }
}

impl From<Answer> for LuossavinAnswer {
    ghost from_gives = { λ answer told. head_in told ≡ head_of answer };

    fn from(answer: Answer) -> LuossavinAnswer {
        match answer.ending {
            Ok(done) => LuossavinAnswer {
                number: 0,
                missing: 0,
                came_round: done.came_round as u8,
                key: answer.key,
                length: done.length,
            },
            Err(refusal) => LuossavinAnswer {
                number: answer::number(refusal),
                missing: answer::missing(refusal),
                ..numbered(0, answer.key)
            },
        }
    }
}

// A mode number from 0 to 4 names its mode, and any other is refused.
pub(crate) fn mode_call(
    direction: Direction,
    mode: u32,
    key: LuossavinKey,
    aad: &[u8],
    data: &[u8],
    iv: &[u8],
    out: &mut [u8],
) -> LuossavinAnswer
    ensures { reported result out.new ≡ host_mode_call direction mode key aad.now «data».now iv.now out.old }
{
    let Ok(mode) = CipherMode::try_from(mode) else {
        return numbered(BAD_MODE, 0);
    };
    let cipher = Sm4Cipher::from(key);
    Sm4CipherMode { cipher, mode }
        .call(direction, aad, data, iv, out)
        .into()
}

#[tactic(auto, unfolding(crate::specs::Host::host_block_call))]
#[unsafe(no_mangle)]
pub extern "C" fn luossavin_block_encrypt(
    key: LuossavinKey,
    block: &[u8],
    out: &mut [u8],
) -> LuossavinAnswer
    ensures { reported result out.new ≡ host_block_call Direction.Encrypt key block.now out.old }
{
    Sm4Cipher::from(key).encrypt(block, out).into()
}

#[tactic(auto, unfolding(crate::specs::Host::host_block_call))]
#[unsafe(no_mangle)]
pub extern "C" fn luossavin_block_decrypt(
    key: LuossavinKey,
    block: &[u8],
    out: &mut [u8],
) -> LuossavinAnswer
    ensures { reported result out.new ≡ host_block_call Direction.Decrypt key block.now out.old }
{
    Sm4Cipher::from(key).decrypt(block, out).into()
}

#[unsafe(no_mangle)]
pub extern "C" fn luossavin_encrypt(
    mode: u32,
    key: LuossavinKey,
    aad: &[u8],
    data: &[u8],
    iv: &[u8],
    out: &mut [u8],
) -> LuossavinAnswer
    ensures { reported result out.new ≡ host_mode_call Direction.Encrypt mode key aad.now «data».now iv.now out.old }
{
    mode_call(Direction::Encrypt, mode, key, aad, data, iv, out)
}

#[unsafe(no_mangle)]
pub extern "C" fn luossavin_decrypt(
    mode: u32,
    key: LuossavinKey,
    aad: &[u8],
    data: &[u8],
    iv: &[u8],
    out: &mut [u8],
) -> LuossavinAnswer
    ensures { reported result out.new ≡ host_mode_call Direction.Decrypt mode key aad.now «data».now iv.now out.old }
{
    mode_call(Direction::Decrypt, mode, key, aad, data, iv, out)
}
