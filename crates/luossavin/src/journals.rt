// A journal of recorded calls, for a host: the record of a call of `luossavin_encrypt` or `luossavin_decrypt` is written, and the
// calls of a journal are made again, on the records that the host's are.
ghost use Rattle.std.specs.Prelude.{◌≡◌};
ghost use Rattle.luossavin.specs.Host.{head_in, reported};
ghost use Rattle.luossavin.specs.Journals.{keys_of, told_of, host_replay};
ghost use Rattle.luossavin.specs.Recording.{wrote_head, host_record};

use crate::in_pieces::direction_of;
use crate::key::LuossavinKey;
use crate::{LuossavinAnswer, numbered};
use cipher_mode::{Sm4Cipher, answer};
use journal::keys::Keys;
use journal::records::Call;
use journal::report::{Difference, Report};
use journal::writer::Unwritten;
use journal::{Stopped, writer};

// The first `count` records; the others are not looked at.
#[repr(C)]
#[derive(Clone, Copy)]
pub struct LuossavinKeys {
    pub count: usize,
    pub keys: [LuossavinKey; 8],
}

// It stands for the `Result` of a replay, and an `Option`, which no C types are: the number of how it ended, and the place of the record
// that was refused; 1 where a record differs, how many records are before the first that does, and its place; and the totals. Where there
// is no such record, what is said of it is 0.
#[repr(C)]
#[derive(Clone, Copy)]
pub struct LuossavinReplayed {
    pub number: u32,
    pub differs: u32,
    pub place: usize,
    pub first_record: u64,
    pub first_place: usize,
    pub records: u64,
    pub by_mode: [u64; 6],
    pub by_answer: [u64; 32],
    pub bytes_in: u64,
    pub bytes_out: u64,
}

// The records that `journal` takes.
impl From<LuossavinKeys> for Keys {
    ghost from_gives = { λ theirs ours. ours ≡ keys_of theirs };

    fn from(keys: LuossavinKeys) -> Keys {
        Keys {
            count: keys.count,
            keys: keys.keys.map(Sm4Cipher::from),
        }
    }
}

impl From<Result<Report, Stopped>> for LuossavinReplayed {
    ghost from_gives = { λ replayed told. told ≡ told_of replayed };

    fn from(replayed: Result<Report, Stopped>) -> LuossavinReplayed {
        let (place, report) = match replayed {
            Ok(report) => (0, report),
            Err(stopped) => (stopped.place, stopped.report),
        };
        let first = report.first.unwrap_or(Difference { index: 0, place: 0 });
        // by variables, as in `key`: a field that is an array goes into a literal only from one
        let by_mode = report.by_mode;
        let by_answer = report.by_answer;
        LuossavinReplayed {
            number: journal::number(replayed),
            differs: report.first.is_some() as u32,
            place,
            first_record: first.index,
            first_place: first.place,
            records: report.records,
            by_mode,
            by_answer,
            bytes_in: report.bytes_in,
            bytes_out: report.bytes_out,
        }
    }
}

#[tactic(auto, unfolding(crate::specs::Journals::host_replay))]
#[unsafe(no_mangle)]
pub extern "C" fn luossavin_replay(keys: LuossavinKeys, file: &[u8]) -> LuossavinReplayed
    ensures { result ≡ host_replay keys file.now }
{
    journal::replay(keys.into(), file).into()
}

impl From<Result<usize, Unwritten>> for LuossavinAnswer {
    ghost from_gives = { λ wrote told. head_in told ≡ wrote_head wrote };

    fn from(wrote: Result<usize, Unwritten>) -> LuossavinAnswer {
        match wrote {
            Ok(length) => answer::done(0, length).into(),
            Err(Unwritten::TooLong) => numbered(24, 0),
            Err(Unwritten::NoRoom) => numbered(6, 0),
        }
    }
}

// A number that a record has no room for is written as the largest.
#[unsafe(no_mangle)]
pub extern "C" fn luossavin_record(
    decrypt: bool,
    mode: u32,
    key: u16,
    aad: &[u8],
    data: &[u8],
    iv: &[u8],
    room: usize,
    number: u32,
    output: &[u8],
    out: &mut [u8],
) -> LuossavinAnswer
    ensures { reported result out.new ≡ host_record decrypt mode key aad.now «data».now iv.now room number output.now out.old }
{
    let call = Call {
        direction: direction_of(decrypt),
        mode: u8::try_from(mode).unwrap_or(u8::MAX),
        key,
        label: aad,
        data,
        iv,
        room: u32::try_from(room).unwrap_or(u32::MAX),
        number: u8::try_from(number).unwrap_or(u8::MAX),
        output,
    };
    writer::write(&call, out).into()
}
