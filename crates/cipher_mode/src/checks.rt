// All that is refused before a byte is looked at: it depends on the key's answer and mark, the mode, the direction and the
// lengths alone. The stages stand in the order of docs/REQUIREMENTS.md, and a call takes those that it has.
ghost use Rattle.std.specs.Prelude.{◌≡◌, ◌≤◌};
ghost use Rattle.cipher_mode.specs.Tables.{limit, limit_of, room_of};
ghost use Rattle.cipher_mode.specs.Checks.{key_check, wrong_iv, retired_check, key_and_iv, label_check, shape_check, data_check, room_check, message_check, block_check};

use crate::answer::Refusal;
use crate::{CipherMode, Direction, KeyAnswer};

// The longest data to encrypt, the longest label of Gcm, and the longest data to decrypt in Cfb, Ofb and Ctr.
pub const LIMIT: usize = 16_777_216;

// The longest data to decrypt in Cbc and Gcm: a block more.
pub const SEALED_LIMIT: usize = LIMIT + 16;

// How many bytes a call was lent of each kind.
#[derive(Clone, Copy, PartialEq, Eq, Debug)]
pub struct Lengths {
    pub iv: usize,
    pub label: usize,
    pub data: usize,
    pub room: usize,
}

// A key's answer that is no key is refused as it was when the key was set up.
fn key(answer: KeyAnswer) -> Result<(), Refusal>
    ensures { result ≡ key_check answer }
{
    match answer {
        KeyAnswer::Key => Ok(()),
        KeyAnswer::ErrorBlockSize => Err(Refusal::ErrorBlockSize),
        KeyAnswer::WrongNumber => Err(Refusal::WrongNumber),
    }
}

// An IV of a size that the mode does not take: 16 bytes, and in Gcm 12 as well.
fn wrong_iv(mode: CipherMode, n: usize) -> bool
    ensures { result ≡ wrong_iv mode n }
{
    match mode {
        CipherMode::Gcm => n != 12 && n != 16,
        _ => n != 16,
    }
}

// A retired key does not encrypt.
fn retired(direction: Direction, retired: bool) -> Result<(), Refusal>
    ensures { result ≡ retired_check direction retired }
{
    match direction {
        Direction::Encrypt if retired => Err(Refusal::Retired),
        _ => Ok(()),
    }
}

// The key's answer is a key, the IV has a size that the mode takes, and the key may do what is asked. Answer and mark come apart from the
// key's record, as the definitions have them (`key_and_iv`, `message_check`, `block_check`).
#[tactic(auto, unfolding(crate::specs::Checks::key_and_iv))]
pub fn key_and_iv(
    answer: KeyAnswer,
    mark: bool,
    direction: Direction,
    mode: CipherMode,
    iv: usize,
) -> Result<(), Refusal>
    ensures { result ≡ key_and_iv answer mark direction mode iv }
{
    key(answer)?;
    if wrong_iv(mode, iv) {
        return Err(Refusal::WrongIv);
    }
    retired(direction, mark)
}

// Only Gcm looks at the label.
pub fn label(mode: CipherMode, n: usize) -> Result<(), Refusal>
    ensures { result ≡ label_check mode n }
{
    match mode {
        CipherMode::Gcm if n > LIMIT => Err(Refusal::TooLong),
        _ => Ok(()),
    }
}

pub fn limit_of(direction: Direction, mode: CipherMode) -> usize
    ensures { result ≡ limit_of direction mode }
{
    match (direction, mode) {
        (Direction::Decrypt, CipherMode::Cbc | CipherMode::Gcm) => SEALED_LIMIT,
        _ => LIMIT,
    }
}

// The lengths of data to decrypt that nothing was ever encrypted to: Cbc gives full blocks, and at least one, and Gcm a tag, and before it
// the text.
fn shape(direction: Direction, mode: CipherMode, n: usize) -> Result<(), Refusal>
    ensures { result ≡ shape_check direction mode n }
{
    match (direction, mode) {
        (Direction::Decrypt, CipherMode::Cbc) if n == 0 => Err(Refusal::EmptyCbc),
        (Direction::Decrypt, CipherMode::Cbc) if n % 16 != 0 => Err(Refusal::ErrorDataLen),
        (Direction::Decrypt, CipherMode::Gcm) if n < 16 => Err(Refusal::ShortGcm((16 - n) as u8)),
        _ => Ok(()),
    }
}

#[tactic(auto, unfolding(crate::specs::Checks::data_check))]
pub fn data(direction: Direction, mode: CipherMode, n: usize) -> Result<(), Refusal>
    ensures { result ≡ data_check direction mode n }
{
    if n > limit_of(direction, mode) {
        return Err(Refusal::TooLong);
    }
    shape(direction, mode, n)
}

// How long the message is that `n` bytes are encrypted to; it needs that room.
pub fn encrypted_length(mode: CipherMode, n: usize) -> usize
    requires { n ≤ limit }
    ensures { result ≡ room_of mode Direction.Encrypt n }
{
    match mode {
        CipherMode::Cfb | CipherMode::Ofb | CipherMode::Ctr => n,
        CipherMode::Cbc => 16 * (n / 16 + 1),
        CipherMode::Gcm => n + 16,
    }
}

fn room_of(direction: Direction, mode: CipherMode, n: usize) -> usize
    requires { data_check direction mode n ≡ Ok tt }
    ensures { result ≡ room_of mode direction n }
{
    match (direction, mode) {
        (Direction::Encrypt, _) => encrypted_length(mode, n),
        (Direction::Decrypt, CipherMode::Gcm) => n - 16,
        (Direction::Decrypt, _) => n,
    }
}

// The room, for data that is in order.
#[tactic(auto, unfolding(crate::specs::Checks::room_check))]
pub fn room(direction: Direction, mode: CipherMode, n: usize, room: usize) -> Result<(), Refusal>
    requires { data_check direction mode n ≡ Ok tt }
    ensures { result ≡ room_check direction mode n room }
{
    if room < room_of(direction, mode, n) {
        return Err(Refusal::NoRoom);
    }
    Ok(())
}

// A message, either way: all stages.
#[tactic(auto, unfolding(crate::specs::Checks::message_check))]
pub fn message(
    answer: KeyAnswer,
    mark: bool,
    direction: Direction,
    mode: CipherMode,
    n: Lengths,
) -> Result<(), Refusal>
    ensures { result ≡ message_check answer mark direction mode n }
{
    key_and_iv(answer, mark, direction, mode, n.iv)?;
    label(mode, n.label)?;
    data(direction, mode, n.data)?;
    room(direction, mode, n.data, n.room)
}

// A single block, either way.
#[tactic(auto, unfolding(crate::specs::Checks::block_check))]
pub fn block(
    answer: KeyAnswer,
    mark: bool,
    direction: Direction,
    n: usize,
    room: usize,
) -> Result<(), Refusal>
    ensures { result ≡ block_check answer mark direction n room }
{
    key(answer)?;
    if n != 16 {
        return Err(Refusal::WrongBlock);
    }
    retired(direction, mark)?;
    if room < 16 {
        return Err(Refusal::NoRoom);
    }
    Ok(())
}
