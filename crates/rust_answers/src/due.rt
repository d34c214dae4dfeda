// What ours has to answer.

// The parts of the list in which ours decides otherwise than libsm: paddings that libsm takes by their last byte alone, and 12-byte IVs.
const INNER_PADDING: u8 = 7;

const TWELVE: u8 = 11;

// What libsm answered, by its names: done, its errors, a panic, and no other name. And what ours decides otherwise: a padding that is
// refused, an encryption under a 12-byte IV that is done, and a decryption under one, of what nobody sealed.
#[derive(Clone, Copy, PartialEq, Eq, Debug)]
pub(crate) enum Due {
    Done,
    ErrorBlockSize,
    ErrorDataLen,
    InvalidLastU8,
    InvalidTag,
    Panic,
    NoName,
    PaddingRefused,
    TwelveSealed,
    TwelveOpened,
}

impl Due {
    // What is due of a record, by its part, its direction and libsm's answer.
    pub(crate) fn of(part: u8, direction: u8, name: u8) -> Due {
        if part == INNER_PADDING {
            return Due::PaddingRefused;
        }
        if part == TWELVE {
            return if direction % 2 == 0 {
                Due::TwelveSealed
            } else {
                Due::TwelveOpened
            };
        }
        match name {
            0 => Due::Done,
            1 => Due::ErrorBlockSize,
            2 => Due::ErrorDataLen,
            3 => Due::InvalidLastU8,
            4 => Due::InvalidTag,
            5 => Due::Panic,
            _ => Due::NoName,
        }
    }

    // Whether an answer may have this number. ErrorBlockSize is the key (1), the IV (10) or the block (11); and a panic is Cbc
    // decryption of nothing (8) or Gcm decryption of too little (9). A request that gives a refusal another number changes this and
    // not the list.
    pub(crate) fn allows(self, number: u32) -> bool {
        match self {
            Due::Done | Due::TwelveSealed => number == 0,
            Due::ErrorBlockSize => matches!(number, 1 | 10 | 11),
            Due::ErrorDataLen => number == 2,
            Due::InvalidLastU8 => number == 3,
            Due::InvalidTag | Due::TwelveOpened => number == 4,
            Due::Panic => matches!(number, 8 | 9),
            Due::NoName => false,
            Due::PaddingRefused => number == 15,
        }
    }
}
