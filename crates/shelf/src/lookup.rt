// What the records of a shelf say: here `used` is its used bytes, which are its records.
ghost use Rattle.std.specs.Prelude.{◌≡◌};
ghost use Rattle.shelf.specs.Records.{records, heads};
ghost use Rattle.shelf.specs.Shelf.{has_current};
ghost use Rattle.shelf.specs.Steps.{sound_up_to, kept_beside, current_in};

use crate::records::Head;
use crate::{Found, records};

// The heads of the records, one after another, as far as they stand whole.
#[derive(Clone, Copy)]
struct Heads<'a>(&'a [u8]);

impl<'a> Iterator for Heads<'a> {
    ghost use Rattle.std.specs.Iterator.{YieldsFirst, item_count};
    ghost use Rattle.shelf.specs.Steps.{heads_left};

    type Item = Head;

    ghost next_gives = { YieldsFirst heads_left };

    ghost remaining = { item_count heads_left };

    fn next(&mut self) -> Option<Head> {
        let head = records::front(self.0)?;
        self.0 = &self.0[head.size..];
        Some(head)
    }
}

// Where a job's current record stands, if there is one.
pub(crate) fn current(used: &[u8], job: u32) -> Option<Found>
    ensures { result ≡ current_in job 0 (heads used.now) }
{
    let mut start = 0;
    for head in Heads(used) {
        if head.is_current_of(job) {
            return Some(Found {
                start,
                length: head.size,
            });
        }
        start += head.size;
    }
    None
}

fn has_current(used: &[u8], job: u32) -> bool
    ensures { result ≡ has_current job (records used.now) }
{
    Heads(used).any(|head| head.is_current_of(job))
}

// How many bytes a collection keeps beside a record of the job that is coming, in one walk; none where some record of the job has at
// least its edition.
pub(crate) fn kept_beside(used: &[u8], job: u32, edition: u16) -> Option<usize>
    ensures { result ≡ kept_beside job edition (records used.now) }
{
    let mut kept = 0;
    for head in Heads(used) {
        if head.reaches(job, edition) {
            return None;
        }
        if head.stays(Some(job)) {
            kept += head.size;
        }
    }
    Some(kept)
}

// How many bytes are in order. A shelf whose used bytes are not all in order breaks off there: at a record that does not stand
// whole or has no known mark, or at the second current record of a job.
pub fn sound_up_to(s: &[u8]) -> usize
    ensures { result ≡ sound_up_to (records s.now) }
{
    let mut at = 0;
    for head in Heads(s) {
        if head.current && has_current(&s[..at], head.job) {
            return at;
        }
        at += head.size;
    }
    at
}
