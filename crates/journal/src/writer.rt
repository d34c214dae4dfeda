// Writes a record.
ghost use Rattle.std.specs.Prelude.{◌≡◌, false, ◌+◌, ◌≤◌, length};
ghost use Rattle.block.specs.Over.{over};
ghost use Rattle.journal.specs.Format.{direction_byte, part, head, middle, too_long};
ghost use Rattle.journal.specs.Reading.{entry_of};
ghost use Rattle.journal.specs.Writer.{asked_of, answered_of, write};

use crate::records::{Call, HEAD, LENGTH, MARK, MIDDLE};
use cipher_mode::Direction;

// Why no record was written: a part or the output is past its limit; or the record does not fit.
#[derive(Clone, Copy, PartialEq, Eq, Debug)]
pub enum Unwritten {
    TooLong,
    NoRoom,
}

// `Direction` is another crate's, so no `From` can stand here.
fn direction_byte(direction: Direction) -> u8
    ensures { result ≡ direction_byte direction }
{
    match direction {
        Direction::Encrypt => 0,
        Direction::Decrypt => 1,
    }
}

// Mark, direction, mode and key number.
fn head(call: &Call<'_>) -> [u8; HEAD]
    ensures { result ≡ head (entry_of call.now) }
{
    let key = call.key.to_be_bytes();
    [
        MARK[0],
        MARK[1],
        direction_byte(call.direction),
        call.mode,
        key[0],
        key[1],
    ]
}

// Room and number.
fn middle(call: &Call<'_>) -> [u8; MIDDLE]
    ensures { result ≡ middle (entry_of call.now) }
{
    let room = call.room.to_be_bytes();
    [room[0], room[1], room[2], room[3], call.number]
}

// A part after its length.
fn put_part(p: &[u8], out: &mut [u8])
    requires p_len_bound { length p.now ≤ 16400 }
    requires p_in_bounds { 4 + length p.now ≤ length out.old }
    ensures { out.new ≡ over (part p.now) out.old }
{
    out[..LENGTH].copy_from_slice(&(p.len() as u32).to_be_bytes());
    out[LENGTH..LENGTH + p.len()].copy_from_slice(p);
}

// What was asked.
fn put_asked(call: &Call<'_>, out: &mut [u8])
    requires short { too_long (entry_of call.now) ≡ false }
    requires in_bounds { 18 + length call.now.label.now + length call.now.data.now + length call.now.iv.now ≤ length out.old }
    ensures { out.new ≡ over (asked_of (entry_of call.now)) out.old }
{
    out[..HEAD].copy_from_slice(&head(call));
    put_part(call.label, &mut out[HEAD..]);
    let at = HEAD + LENGTH + call.label.len();
    put_part(call.data, &mut out[at..]);
    let at = at + LENGTH + call.data.len();
    put_part(call.iv, &mut out[at..]);
}

// What was answered.
fn put_answered(call: &Call<'_>, out: &mut [u8])
    requires short { too_long (entry_of call.now) ≡ false }
    requires in_bounds { 9 + length call.now.output.now ≤ length out.old }
    ensures { out.new ≡ over (answered_of (entry_of call.now)) out.old }
{
    out[..MIDDLE].copy_from_slice(&middle(call));
    put_part(call.output, &mut out[MIDDLE..]);
}

// Writes a record to the front of `out`, and says how many bytes it has. A refusal leaves `out` as it was.
pub fn write(call: &Call<'_>, out: &mut [u8]) -> Result<usize, Unwritten>
    ensures { record { wrote = result; bytes = out.new } ≡ write (entry_of call.now) out.old }
{
    if call.too_long() {
        return Err(Unwritten::TooLong);
    }
    let asked = HEAD + 3 * LENGTH + call.label.len() + call.data.len() + call.iv.len();
    let size = asked + MIDDLE + LENGTH + call.output.len();
    if out.len() < size {
        return Err(Unwritten::NoRoom);
    }
    put_asked(call, out);
    put_answered(call, &mut out[asked..]);
    Ok(size)
}
