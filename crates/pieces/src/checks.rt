// What is refused of a start, a piece and an end. Whatever numbers a host hands in, no sum wraps.
ghost use Rattle.std.specs.Prelude.{◌≡◌, ◌+◌, ltb};
ghost use Rattle.cipher_mode.specs.Tables.{limit};
ghost use Rattle.pieces.specs.Checks.{gcm_starting, standing, running, writing, tagged};

use cipher_mode::answer::Refusal;
use cipher_mode::checks::LIMIT;
use cipher_mode::{CipherMode, Direction, KeyAnswer};

// Whether `n` bytes behind a total of so many end past the limit.
pub fn past_limit(total: usize, n: usize) -> bool
    ensures { result ≡ ltb limit (total + n) }
{
    total.saturating_add(n) > LIMIT
}

// A start of Gcm, either way.
#[tactic(auto, unfolding(crate::specs::Checks::gcm_starting))]
pub(crate) fn gcm_start(
    answer: KeyAnswer,
    mark: bool,
    direction: Direction,
    iv: usize,
    label: usize,
) -> Result<(), Refusal>
    ensures { result ≡ gcm_starting answer mark direction iv label }
{
    cipher_mode::checks::key_and_iv(answer, mark, direction, CipherMode::Gcm, iv)?;
    cipher_mode::checks::label(CipherMode::Gcm, label)
}

// A state stands at 0 while it runs, and otherwise at the number of what every call answers: a state is the host's, and holds a number.
#[tactic(auto, unfolding(crate::specs::Checks::standing))]
fn standing(mark: u32) -> Result<(), Refusal>
    ensures { result ≡ standing mark }
{
    match mark {
        0 => Ok(()),
        1 => Err(Refusal::ErrorBlockSize),
        5 => Err(Refusal::TooLong),
        10 => Err(Refusal::WrongIv),
        13 => Err(Refusal::WrongNumber),
        14 => Err(Refusal::Retired),
        _ => Err(Refusal::Ended),
    }
}

// A state that runs, and `n` bytes more. The lengths of a state that a host made up may be any numbers. Mark, label and total come apart
// here and below: the states are three types, of which Ctr has no label, and the definitions have them so.
#[tactic(auto, unfolding(crate::specs::Checks::running))]
pub(crate) fn running(mark: u32, label: usize, total: usize, n: usize) -> Result<(), Refusal>
    ensures { result ≡ running mark label total n }
{
    standing(mark)?;
    if label > LIMIT || past_limit(total, n) {
        return Err(Refusal::TooLong);
    }
    Ok(())
}

// And `written` bytes are to be written.
#[tactic(auto, unfolding(crate::specs::Checks::writing))]
pub(crate) fn writing(
    mark: u32,
    label: usize,
    total: usize,
    n: usize,
    written: usize,
    room: usize,
) -> Result<(), Refusal>
    ensures { result ≡ writing mark label total n written room }
{
    running(mark, label, total, n)?;
    if room < written {
        return Err(Refusal::NoRoom);
    }
    Ok(())
}

// Or a tag of `tag` bytes is handed in. A longer one misses none.
#[tactic(auto, unfolding(crate::specs::Checks::tagged))]
pub(crate) fn tagged(mark: u32, label: usize, total: usize, tag: usize) -> Result<(), Refusal>
    ensures { result ≡ tagged mark label total tag }
{
    running(mark, label, total, 0)?;
    if tag != 16 {
        return Err(Refusal::ShortGcm(16usize.saturating_sub(tag) as u8));
    }
    Ok(())
}
