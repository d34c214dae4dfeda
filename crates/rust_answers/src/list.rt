// The list of recorded answers: its head and its records. README.md beside this crate's folders has its form.
use crate::due::Due;
use cipher_mode::{CipherMode, Direction};

// What the list begins with; the number of its records is behind it.
const MARK: &[u8] = b"luossavin answers 1\n";

// What was called: a single block, or a mode.
#[derive(Clone, Copy, PartialEq, Eq, Debug)]
pub(crate) enum Called {
    Block,
    Mode(CipherMode),
}

// A call, and what is due of its answer. Of libsm's output there is none where it refused.
#[derive(Clone, Copy)]
pub(crate) struct Record<'a> {
    pub(crate) part: u8,
    pub(crate) direction: Direction,
    pub(crate) called: Called,
    pub(crate) due: Due,
    pub(crate) key: &'a [u8],
    pub(crate) iv: &'a [u8],
    pub(crate) label: &'a [u8],
    pub(crate) data: &'a [u8],
    pub(crate) output: &'a [u8],
}

impl<'a> Record<'a> {
    // The record at the front of the bytes, and what is behind it; none where it is cut.
    pub(crate) fn read(bytes: &'a [u8]) -> Option<(Record<'a>, &'a [u8])> {
        let (fixed, rest) = bytes.split_first_chunk::<4>()?;
        let [part, direction, mode, name] = *fixed;
        let (key, rest) = number(rest)?;
        let (iv, rest) = number(rest)?;
        let (label, rest) = number(rest)?;
        let (data, rest) = number(rest)?;
        let (output, rest) = number(rest)?;
        let (key, rest) = rest.split_at_checked(key as usize)?;
        let (iv, rest) = rest.split_at_checked(iv as usize)?;
        let (label, rest) = rest.split_at_checked(label as usize)?;
        let (data, rest) = rest.split_at_checked(data as usize)?;
        let (output, rest) = rest.split_at_checked(output as usize)?;
        let record = Record {
            part,
            direction: match direction {
                0 => Direction::Encrypt,
                _ => Direction::Decrypt,
            },
            called: match mode {
                5 => Called::Block,
                _ => Called::Mode(cipher_mode::mode_of(mode as u32)),
            },
            due: Due::of(part, direction, name),
            key,
            iv,
            label,
            data,
            output,
        };
        Some((record, rest))
    }
}

// The big-endian number at the front of the bytes, and what is behind it.
fn number(bytes: &[u8]) -> Option<(u32, &[u8])> {
    let (number, rest) = bytes.split_first_chunk::<4>()?;
    Some((u32::from_be_bytes(*number), rest))
}

// How many records the list says it has, and what is behind its head; none where it is no list.
pub(crate) fn opened(list: &[u8]) -> Option<(u32, &[u8])> {
    number(list.strip_prefix(MARK)?)
}
