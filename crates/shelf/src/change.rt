// What changes a shelf; its first `used` bytes are its records.
ghost use Rattle.std.specs.Prelude.{◌≡◌, ◌+◌, ◌≤◌, ltb, length, take, Some};
ghost use Rattle.block.specs.Over.{over};
ghost use Rattle.shelf.specs.Records.{written, stored, records};
ghost use Rattle.shelf.specs.Shelf.{those};
ghost use Rattle.shelf.specs.Steps.{stays, room_made, InOrder};
ghost use Rattle.shelf.specs.Calls.{new_record};

use crate::{lookup, records};

// Collects, and hands back how many bytes are kept. A record that stays moves down over those that do not, so what is behind the
// last that stays is as it was. The walk asks for one head at a time: an iterator would lend the buffer that it writes.
pub(crate) fn keep(shelf: &mut [u8], used: usize, coming: Option<u32>) -> usize
    requires { used ≤ length shelf.old }
    ensures value { result ≡ length (stored (those (stays coming) (records (take used shelf.old)))) }
    ensures shelf_after { shelf.new ≡ over (stored (those (stays coming) (records (take used shelf.old)))) shelf.old }
{
    let mut to = 0;
    let mut at = 0;
    while let Some(head) = records::front(&shelf[at..used]) {
        let end = at + head.size;
        if head.stays(coming) {
            shelf.copy_within(at..end, to);
            to += head.size;
        }
        at = end;
    }
    to
}

// Whether a record with `n` sealed bytes finds no room behind `taken` bytes.
pub(crate) fn short(room: usize, taken: usize, n: usize) -> bool
    requires { room ≤ 65536 }
    ensures { result ≡ ltb room (taken + (12 + n)) }
{
    room < taken.saturating_add(records::HEAD).saturating_add(n)
}

// Makes room for a new record of the job with `n` sealed bytes, and hands back where it goes. Where it fits behind the last one,
// the current one, if there is one, is marked superseded, one byte; else all that is superseded is thrown out, and that one with it,
// unmarked.
pub(crate) fn make_room(shelf: &mut [u8], used: usize, job: u32, n: usize) -> usize
    requires { InOrder shelf.old used }
    ensures value { result ≡ length (stored (room_made (length shelf.old) n job (records (take used shelf.old)))) }
    ensures shelf_after { shelf.new ≡ over (stored (room_made (length shelf.old) n job (records (take used shelf.old)))) shelf.old }
{
    if short(shelf.len(), used, n) {
        return keep(shelf, used, Some(job));
    }
    if let Some(old) = lookup::current(&shelf[..used], job) {
        shelf[old.start + 1] = records::SUPERSEDED;
    }
    used
}

// Writes a current record to the front of `out`.
pub(crate) fn write(job: u32, edition: u16, sealed: &[u8], out: &mut [u8])
    requires sealed_in_bounds { 12 + length sealed.now ≤ length out.old }
    requires sealed_len_bound { length sealed.now ≤ 65536 }
    ensures { out.new ≡ over (written (new_record job edition sealed.now)) out.old }
{
    let head = records::new_head(job, edition, sealed.len() as u32);
    out[..records::HEAD].copy_from_slice(&head);
    out[records::HEAD..records::HEAD + sealed.len()].copy_from_slice(sealed);
}
