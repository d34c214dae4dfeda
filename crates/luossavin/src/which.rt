// Which of many labels a file opens under, for a host. The part of the lent buffer crosses as its start and length, since no
// reference does.
ghost use Rattle.std.specs.Prelude.{◌≡◌};
ghost use Rattle.cipher_mode.specs.Outcome.{under};
ghost use Rattle.luossavin.specs.Host.{head_in};
ghost use Rattle.luossavin.specs.Which.{ended_head, found_reported, host_which};

use crate::key::LuossavinKey;
use crate::{LuossavinAnswer, numbered};
use cipher_mode::answer;
use editions::{Found, Unanswered};

// It stands for `Found`, which holds an `Option`. `found` is 1 or 0, and place, start and length are 0 unless it is 1.
#[repr(C)]
#[derive(Clone, Copy)]
pub struct LuossavinFound {
    pub answer: LuossavinAnswer,
    pub found: u32,
    pub place: u32,
    pub start: usize,
    pub length: usize,
}

// How a question ended, as an answer; `none` is the number where the file opens under no candidate.
pub(crate) fn report_found(found: Found, none: u32) -> LuossavinAnswer
    ensures { head_in result ≡ under found.key (ended_head none found.ended) }
{
    match found.ended {
        Ok(Some(_)) => numbered(0, found.key),
        Ok(None) => numbered(none, found.key),
        Err(Unanswered::BadList) => numbered(16, found.key),
        Err(Unanswered::Refused(refusal)) => answer::refused(found.key, refusal).into(),
    }
}

#[unsafe(no_mangle)]
pub extern "C" fn luossavin_which(
    key: LuossavinKey,
    sealed: &[u8],
    iv: &[u8],
    labels: &[u8],
    lengths: &[usize],
) -> LuossavinFound
    ensures { found_reported result ≡ host_which key sealed.now iv.now labels.now lengths.now }
{
    let found = editions::which(key.into(), sealed, iv, labels, lengths);
    let answer = report_found(found, 0);
    match found.ended {
        Ok(Some(candidate)) => LuossavinFound {
            answer,
            found: 1,
            place: candidate.place as u32,
            start: candidate.start,
            length: candidate.length,
        },
        _ => LuossavinFound {
            answer,
            found: 0,
            place: 0,
            start: 0,
            length: 0,
        },
    }
}
