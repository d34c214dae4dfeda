// A shelf, for a host: the calls of the crate `shelf` on a buffer that the host lends. The record that is found crosses as its
// start and length, since no reference does.
ghost use Rattle.std.specs.Prelude.{◌≡◌, ℕ, List};
ghost use Rattle.shelf.specs.Calls.{outcome_of, place_in, put_call, collect_call, find_call};
ghost use Rattle.luossavin.specs.Shelves.{shelf_reported, shelved_reported};

use shelf::{Found, NotKept, Unshelved};

// The number of how it ended, and how many bytes are used after the call: a refusal hands back the count that came.
#[repr(C)]
#[derive(Clone, Copy)]
pub struct LuossavinShelf {
    pub number: u32,
    pub used: usize,
}

// The number of how it ended, and where the record stands; both are 0 in a refusal.
#[repr(C)]
#[derive(Clone, Copy)]
pub struct LuossavinShelved {
    pub number: u32,
    pub start: usize,
    pub length: usize,
}

// How a change of a shelf ended.
fn report_kept(kept: Result<usize, NotKept>) -> LuossavinShelf
    ensures { (shelf : List ℕ) → shelf_reported result shelf ≡ outcome_of kept shelf }
{
    match kept {
        Ok(used) => LuossavinShelf { number: 0, used },
        Err(refused) => LuossavinShelf {
            number: shelf::number(Some(refused.why)),
            used: refused.used,
        },
    }
}

impl From<Result<Found, Unshelved>> for LuossavinShelved {
    ghost from_gives = { λ found told. shelved_reported told ≡ place_in found };

    fn from(found: Result<Found, Unshelved>) -> LuossavinShelved {
        match found {
            Ok(found) => LuossavinShelved {
                number: 0,
                start: found.start,
                length: found.length,
            },
            Err(refused) => LuossavinShelved {
                number: shelf::number(Some(refused)),
                start: 0,
                length: 0,
            },
        }
    }
}

#[unsafe(no_mangle)]
pub extern "C" fn luossavin_shelf_put(
    shelf: &mut [u8],
    used: usize,
    job: u32,
    edition: u16,
    sealed: &[u8],
) -> LuossavinShelf
    ensures { shelf_reported result shelf.new ≡ put_call shelf.old used job edition sealed.now }
{
    report_kept(shelf::put(shelf, used, job, edition, sealed))
}

#[unsafe(no_mangle)]
pub extern "C" fn luossavin_shelf_collect(shelf: &mut [u8], used: usize) -> LuossavinShelf
    ensures { shelf_reported result shelf.new ≡ collect_call shelf.old used }
{
    report_kept(shelf::collect(shelf, used))
}

#[unsafe(no_mangle)]
pub extern "C" fn luossavin_shelf_find(shelf: &[u8], used: usize, job: u32) -> LuossavinShelved
    ensures { shelved_reported result ≡ find_call shelf.now used job }
{
    shelf::find(shelf, used, job).into()
}
