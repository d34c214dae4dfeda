// What a call answers. Every head is made here.
ghost use Rattle.std.specs.Prelude.{◌≡◌};
ghost use Rattle.cipher_mode.specs.Outcome.{finished, under, telling};
ghost use Rattle.cipher_mode.specs.Answer.{padding_refusal, refusal_head, head_of};

use crate::Done;
use padding::BadPadding;

// Why a call was refused, by the names of libsm and, after them, those that tell the lengths apart: Cbc decryption of
// nothing; a Gcm message or tag that is not as long as it must be, with how many bytes were missing; a wrong IV; a wrong
// single block. Then come a message in pieces that has come to its end, a key's number out of range, encrypting under a
// retired key, and a Cbc padding whose bytes are not all its count.
#[derive(Clone, Copy, PartialEq, Eq, Debug)]
pub enum Refusal {
    ErrorBlockSize,
    ErrorDataLen,
    InvalidLastU8,
    InvalidTag,
    TooLong,
    NoRoom,
    EmptyCbc,
    ShortGcm(u8),
    WrongIv,
    WrongBlock,
    Ended,
    WrongNumber,
    Retired,
    InvalidPadding,
}

// Why a Cbc message did not open.
impl From<BadPadding> for Refusal {
    ghost from_gives = { λ bad r. r ≡ padding_refusal bad };

    fn from(bad: BadPadding) -> Refusal {
        match bad {
            BadPadding::InvalidLastU8 => Refusal::InvalidLastU8,
            BadPadding::InvalidPadding => Refusal::InvalidPadding,
        }
    }
}

// How a call ended, and the number of the key that it was made on: 0 where no key stands, as in the host's structs.
#[derive(Clone, Copy, PartialEq, Eq, Debug)]
pub struct Answer {
    pub ending: Result<Done, Refusal>,
    pub key: u16,
}

// The number of a refusal, as in docs/NUMBERS.md. No From: docs/PROMISES.md names this function, and `missing`.
pub fn number(refusal: Refusal) -> u32
    ensures { result ≡ (refusal_head refusal).number }
{
    match refusal {
        Refusal::ErrorBlockSize => 1,
        Refusal::ErrorDataLen => 2,
        Refusal::InvalidLastU8 => 3,
        Refusal::InvalidTag => 4,
        Refusal::TooLong => 5,
        Refusal::NoRoom => 6,
        Refusal::EmptyCbc => 8,
        Refusal::ShortGcm(_) => 9,
        Refusal::WrongIv => 10,
        Refusal::WrongBlock => 11,
        Refusal::Ended => 12,
        Refusal::WrongNumber => 13,
        Refusal::Retired => 14,
        Refusal::InvalidPadding => 15,
    }
}

// How many bytes were missing: of refusal 9 alone, and 0 of every other, as the host's structs have it.
pub fn missing(refusal: Refusal) -> u8
    ensures { result ≡ (refusal_head refusal).missing }
{
    match refusal {
        Refusal::ShortGcm(n) => n,
        _ => 0,
    }
}

pub fn done(key: u16, length: usize) -> Answer
    ensures { head_of result ≡ under key (finished «length») }
{
    done_round(key, length, false)
}

// Done with a message whose counter came round, or did not.
pub fn done_round(key: u16, length: usize, came_round: bool) -> Answer
    ensures { head_of result ≡ under key (telling came_round (finished «length»)) }
{
    Answer {
        ending: Ok(Done { length, came_round }),
        key,
    }
}

pub fn refused(key: u16, refusal: Refusal) -> Answer
    ensures { head_of result ≡ under key (refusal_head refusal) }
{
    Answer {
        ending: Err(refusal),
        key,
    }
}
