// A shelf: sealed files in one lent buffer, as records one after another. A job has one current record, or none; putting in a
// new edition supersedes it, and collection throws out what is superseded. The used count stands beside the buffer, since a put
// writes behind it, and since the C calls pass both.

#![tactic(auto)]

mod change;
pub mod lookup;
pub mod records;

ghost use Rattle.std.specs.Prelude.{◌≡◌};
ghost use Rattle.shelf.specs.Calls.{checked, number_of_end, outcome_of, put_call, collect_call, place_in, find_call, part_of};

// The most bytes of a buffer.
const MOST: usize = 65536;

// Why a call is refused. A bad shelf is a buffer over 65,536 bytes, records that do not fill the used count exactly, an unknown
// mark, or two current records of one job.
#[derive(Clone, Copy, PartialEq, Eq, Debug)]
pub enum Unshelved {
    BadShelf,
    NotHigher,
    NoRoom,
    NoCurrent,
}

// A refusal of a put or of a collection, and how many bytes are used: as many as came.
#[derive(Clone, Copy, PartialEq, Eq, Debug)]
pub struct NotKept {
    pub why: Unshelved,
    pub used: usize,
}

// A job's current record as a part of the buffer. A range of usize would not be Copy.
#[derive(Clone, Copy, PartialEq, Eq, Debug)]
pub struct Found {
    pub start: usize,
    pub length: usize,
}

// The number of how a call ended, as in docs/NUMBERS.md: 0 where it was done. No From: docs/PROMISES.md has the calls of this crate by name.
pub fn number(refused: Option<Unshelved>) -> u32
    ensures { result ≡ number_of_end refused }
{
    match refused {
        None => 0,
        Some(Unshelved::BadShelf) => 19,
        Some(Unshelved::NotHigher) => 20,
        Some(Unshelved::NoRoom) => 21,
        Some(Unshelved::NoCurrent) => 22,
    }
}

fn check(shelf: &[u8], used: usize) -> Result<(), NotKept>
    ensures { result ≡ checked shelf.now used }
{
    if shelf.len() > MOST || used > shelf.len() || lookup::sound_up_to(&shelf[..used]) != used {
        return Err(NotKept {
            why: Unshelved::BadShelf,
            used,
        });
    }
    Ok(())
}

// Puts in an edition of a job, which must be higher than every one of it on the shelf, and hands back how many bytes are used now.
// All is decided before the first byte is written.
pub fn put(
    shelf: &mut [u8],
    used: usize,
    job: u32,
    edition: u16,
    sealed: &[u8],
) -> Result<usize, NotKept>
    ensures { outcome_of result shelf.new ≡ put_call shelf.old used job edition sealed.now }
{
    check(shelf, used)?;
    let Some(kept) = lookup::kept_beside(&shelf[..used], job, edition) else {
        return Err(NotKept {
            why: Unshelved::NotHigher,
            used,
        });
    };
    let n = sealed.len();
    if change::short(shelf.len(), kept, n) {
        return Err(NotKept {
            why: Unshelved::NoRoom,
            used,
        });
    }
    let at = change::make_room(shelf, used, job, n);
    change::write(job, edition, sealed, &mut shelf[at..]);
    Ok(at + (records::HEAD + n))
}

// Throws out every superseded record, and hands back how many bytes are used now.
pub fn collect(shelf: &mut [u8], used: usize) -> Result<usize, NotKept>
    ensures { outcome_of result shelf.new ≡ collect_call shelf.old used }
{
    check(shelf, used)?;
    Ok(change::keep(shelf, used, None))
}

// Looks up a job's current record. Nothing is copied.
pub fn find(shelf: &[u8], used: usize, job: u32) -> Result<Found, Unshelved>
    ensures { place_in result ≡ find_call shelf.now used job }
{
    if let Err(refused) = check(shelf, used) {
        return Err(refused.why);
    }
    lookup::current(&shelf[..used], job).ok_or(Unshelved::NoCurrent)
}

// The record found, as a part of the buffer that was asked; an empty part where an answer that a caller made up points outside. The two
// lines stand in `editions::part` too, and are no plainer by a function of `block` with a definition of its own.
pub fn part(shelf: &[u8], found: Result<Found, Unshelved>) -> &[u8]
    ensures { result.now ≡ part_of (place_in found) shelf.now }
{
    let Ok(found) = found else {
        return &[];
    };
    let behind = shelf.get(found.start..).unwrap_or(&[]);
    behind.get(..found.length).unwrap_or(&[])
}
