// Ctr from any byte on.
ghost use Rattle.std.specs.Prelude.{◌≡◌, ◌+◌, ◌≤◌, length};
ghost use Rattle.block.specs.Over.{over};
ghost use Rattle.cipher_mode.specs.Answer.{outcome, ended};
ghost use Rattle.ranges.specs.Range.{stretch, reach_check, range_ended, range_call};

use cipher::Engine;
use cipher_mode::answer::{Answer, Refusal};
use cipher_mode::{CipherMode, Direction, Done, Sm4Cipher};
use pieces::flow::Counting;
use pieces::{checks, flow};

// What is refused of key, IV and the end of a stretch. No sum wraps.
#[tactic(auto, unfolding(crate::specs::Range::reach_check))]
pub(crate) fn reach(
    cipher: Sm4Cipher,
    direction: Direction,
    iv: usize,
    offset: usize,
    n: usize,
) -> Result<(), Refusal>
    ensures { result ≡ reach_check cipher.answer cipher.retired direction iv (offset + n) }
{
    cipher_mode::checks::key_and_iv(
        cipher.answer,
        cipher.retired,
        direction,
        CipherMode::Ctr,
        iv,
    )?;
    if checks::past_limit(offset, n) {
        return Err(Refusal::TooLong);
    }
    Ok(())
}

// The stretch `data` at `offset`, to the front of `out`. The counter is jumped to.
pub(crate) fn put_stretch(
    engine: Engine,
    rk: [u32; 32],
    iv: &[u8],
    offset: usize,
    data: &[u8],
    out: &mut [u8],
)
    requires iv_len { length iv.now ≡ 16 }
    requires data_in_bounds { length «data».now ≤ length out.old }
    ensures { out.new ≡ over (stretch rk iv.now offset «data».now) out.old }
{
    let first = counter::jump(block::split_block(iv), (offset / 16) as u64);
    let begun = flow::begin(engine, rk, first);
    flow::run(engine, rk, Counting::Ctr, begun, offset % 16, data, out);
}

fn ranged(
    cipher: Sm4Cipher,
    direction: Direction,
    iv: &[u8],
    offset: usize,
    data: &[u8],
    out: &mut [u8],
) -> Result<Done, Refusal>
    ensures { ended result out.new ≡ range_ended direction cipher iv.now offset «data».now out.old }
{
    let length = data.len();
    reach(cipher, direction, iv.len(), offset, length)?;
    if out.len() < length {
        return Err(Refusal::NoRoom);
    }
    // Counters do not wait for one another.
    let engine = cipher::engine_of(cipher.engine, false);
    put_stretch(engine, cipher.rk, iv, offset, data, out);
    Ok(Done {
        length,
        came_round: false,
    })
}

// A stretch of a message in Ctr, either way, to the front of `out`: xored with that part of the key stream.
#[tactic(auto, unfolding(crate::specs::Range::range_call))]
pub fn range(
    cipher: Sm4Cipher,
    direction: Direction,
    iv: &[u8],
    offset: usize,
    data: &[u8],
    out: &mut [u8],
) -> Answer
    ensures { outcome result out.new ≡ range_call direction cipher iv.now offset «data».now out.old }
{
    Answer {
        ending: ranged(cipher, direction, iv, offset, data, out),
        key: cipher_mode::number_in(cipher.answer, cipher.number),
    }
}
