// A record of a journal: read from the front of a part of one, and held against the limits.
ghost use Rattle.std.specs.Prelude.{◌≡◌, ◌≤◌, ◌<◌, false, MatchOption};
ghost use Rattle.journal.specs.Format.{direction_of, starts_part, starts_record, too_long};
ghost use Rattle.journal.specs.Reading.{entry_of, Reads, ReadsPart, measure};

use cipher_mode::Direction;

// What a record begins with.
pub(crate) const MARK: [u8; 2] = *b"TR";

// Mark, direction, mode and key number; then, behind the IV, room and number.
pub(crate) const HEAD: usize = 6;

pub(crate) const MIDDLE: usize = 5;

// The bytes of a length.
pub(crate) const LENGTH: usize = 4;

// The most bytes of a label, of data or of an IV, and of an output.
pub(crate) const PART_LIMIT: usize = 16384;

pub(crate) const OUTPUT_LIMIT: usize = 16400;

// A call as it was recorded: what was asked on which key, with how much room, and the number and the output of the answer.
#[derive(Clone, Copy)]
pub struct Call<'a> {
    pub direction: Direction,
    pub mode: u8,
    pub key: u16,
    pub label: &'a [u8],
    pub data: &'a [u8],
    pub iv: &'a [u8],
    pub room: u32,
    pub number: u8,
    pub output: &'a [u8],
}

impl<'a> Call<'a> {
    // Whether a part or the output is past its limit. That none is stays a clause of three functions and no invariant: `write` takes a
    // longer call too, and refuses it.
    pub(crate) fn too_long(&self) -> bool
        ensures { result ≡ too_long (entry_of self.now) }
    {
        self.label.len() > PART_LIMIT
            || self.data.len() > PART_LIMIT
            || self.iv.len() > PART_LIMIT
            || self.output.len() > OUTPUT_LIMIT
    }
}

// The direction that a byte tells, if it tells one. `Direction` is another crate's, so no `TryFrom` for it can stand here.
fn direction_of(byte: u8) -> Option<Direction>
    ensures { MatchOption result (1 < byte) (λ d. (byte ≤ 1) × (d ≡ direction_of byte)) }
{
    match byte {
        0 => Some(Direction::Encrypt),
        1 => Some(Direction::Decrypt),
        _ => None,
    }
}

// The part at the front of `s` and what is behind it, if it stands whole there. What its length says is compared with what is left, so
// no sum wraps.
fn part(s: &[u8]) -> Option<(&[u8], &[u8])>
    ensures { MatchOption result (starts_part s.now ≡ false) (λ p. ReadsPart s.now p.0.now p.1.now) }
{
    let (length, rest) = s.split_first_chunk::<LENGTH>()?;
    rest.split_at_checked(u32::from_be_bytes(*length) as usize)
}

// The record at the front of `s` and what is behind it, if it stands whole there, by the lengths that it states.
pub(crate) fn read(s: &[u8]) -> Option<(Call<'_>, &[u8])>
    ensures { MatchOption result (starts_record s.now ≡ false) (λ p. Reads s.now p.0 p.1.now) }
{
    let (head, rest) = s.split_first_chunk::<HEAD>()?;
    let [first, second, direction, mode, high, low] = *head;
    if [first, second] != MARK {
        return None;
    }
    let direction = direction_of(direction)?;
    let (label, rest) = part(rest)?;
    let (data, rest) = part(rest)?;
    let (iv, rest) = part(rest)?;
    let (middle, rest) = rest.split_first_chunk::<MIDDLE>()?;
    let [a, b, c, d, number] = *middle;
    let (output, rest) = part(rest)?;
    let call = Call {
        direction,
        mode,
        key: u16::from_be_bytes([high, low]),
        label,
        data,
        iv,
        room: u32::from_be_bytes([a, b, c, d]),
        number,
        output,
    };
    Some((call, rest))
}

// How many bytes the record at the front of `s` has, if one stands whole there.
pub fn measure(s: &[u8]) -> Option<usize>
    ensures { result ≡ measure s.now }
{
    let (_, rest) = read(s)?;
    Some(s.len() - rest.len())
}
