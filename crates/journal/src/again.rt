// A recorded call, made again.
ghost use Rattle.std.specs.Prelude.{◌≡◌, false, not, ◌+◌, ◌≤◌, ◌<◌, length};
ghost use Rattle.block.specs.Same.{same};
ghost use Rattle.cipher_mode.specs.Answer.{head_of};
ghost use Rattle.journal.specs.Format.{too_long};
ghost use Rattle.journal.specs.Reading.{entry_of};
ghost use Rattle.journal.specs.Recomputed.{call_into, Answers, recomputed, differs_from, lent_room, judged};

use crate::records::{Call, OUTPUT_LIMIT};
use cipher_mode::answer::Answer;
use cipher_mode::{CipherMode, Sm4Cipher, Sm4CipherMode, answer};

// The number of a mode that is none.
const BAD_MODE: u32 = 7;

// What a call answered, by its number: a record has a number, not a refusal, and the report counts by it.
#[derive(Clone, Copy)]
pub(crate) struct Answered {
    pub number: u32,
    pub length: usize,
}

// What it answered, and whether that is something else than was recorded.
#[derive(Clone, Copy)]
pub(crate) struct Recomputed {
    pub number: u32,
    pub length: usize,
    pub differs: bool,
}

impl From<Answer> for Answered {
    ghost from_gives = { λ answer told. told ≡ record { number = (head_of answer).number; length = (head_of answer).size } };

    fn from(answer: Answer) -> Answered {
        match answer.ending {
            Ok(done) => Answered {
                number: 0,
                length: done.length,
            },
            Err(refusal) => Answered {
                number: answer::number(refusal),
                length: 0,
            },
        }
    }
}

fn call_into(cipher: Sm4Cipher, call: &Call<'_>, out: &mut [u8]) -> Answered
    ensures { Answers result out.new (call_into cipher (entry_of call.now) out.old) }
{
    let Ok(mode) = CipherMode::try_from(call.mode as u32) else {
        return Answered {
            number: BAD_MODE,
            length: 0,
        };
    };
    let under = Sm4CipherMode { cipher, mode };
    Answered::from(under.call(call.direction, call.label, call.data, call.iv, out))
}

// Whether the bytes are other ones. Not `!=`: the library compares in a function of its own, and a jump on recorded bytes may stand in
// `luossavin_replay` alone (host/secrets).
fn other(a: &[u8], b: &[u8]) -> bool
    ensures { result ≡ not (same a.now b.now) }
{
    a.len() != b.len() || a.iter().zip(b).any(|(x, y)| x != y)
}

fn differs(call: &Call<'_>, answered: Answered, res: &[u8]) -> bool
    ensures { result ≡ differs_from (entry_of call.now) answered.number answered.length res.now }
{
    call.number as u32 != answered.number
        || call.output.len() != answered.length
        || other(call.output, res)
}

// How much room the call is lent: never more than the longest output, whatever was recorded.
fn lent_room(call: &Call<'_>) -> usize
    ensures { result ≡ lent_room (entry_of call.now) }
{
    (call.room as usize).min(OUTPUT_LIMIT)
}

pub(crate) fn recompute(cipher: Sm4Cipher, call: &Call<'_>) -> Recomputed
    requires { too_long (entry_of call.now) ≡ false }
    ensures value { result ≡ judged (entry_of call.now) (recomputed cipher (entry_of call.now)) }
    ensures number_bound { result.number < 27 }
    ensures length_bound { result.length ≤ 16 + length call.now.data.now }
{
    let room = lent_room(call);
    let mut out = [0; OUTPUT_LIMIT];
    let answered = call_into(cipher, call, &mut out[..room]);
    let Answered { number, length } = answered;
    let differs = differs(call, answered, &out[..length]);
    Recomputed {
        number,
        length,
        differs,
    }
}
