// Which of many labels a sealed file opens under. Nothing is decrypted and nothing is written.

#![tactic(auto)]

ghost use Rattle.std.specs.Prelude.{◌≡◌, ◌^◌, ◌<◌, true, false, length, MatchOption, SomeIff};
ghost use Rattle.block.specs.Wide.{value};
ghost use Rattle.block.specs.Words.{unwords};
ghost use Rattle.ghash.specs.Ghash.{blocks};
ghost use Rattle.ghash.specs.Joined.{HalfOf};
ghost use Rattle.gcm.specs.Gcm.{hash_key, J0, text_part};
ghost use Rattle.cipher_mode.specs.Checks.{wrong_iv, data_check};
ghost use Rattle.editions.specs.Candidates.{sum, bad_list, any_too_long};
ghost use Rattle.editions.specs.Which.{first_opening, search_check, checked_verdict, opens_file, opens_masked, opens_with, which, part_of};
ghost use Rattle.editions.specs.Which.{found_verdict, ended_verdict, verdict_of};

use block::U128;
use cipher::Engine;
use cipher_mode::answer::Refusal;
use cipher_mode::checks::LIMIT;
use cipher_mode::{CipherMode, Direction, Sm4Cipher, checks};
use ghash::halves::Half;

// The most candidates of one question.
const MOST: usize = 64;

// Why a question has no answer. A bad list is more than 64 candidates, or lengths that do not add up to the buffer.
#[derive(Clone, Copy, PartialEq, Eq, Debug)]
pub enum Unanswered {
    BadList,
    Refused(Refusal),
}

impl From<Refusal> for Unanswered {
    ghost use Rattle.std.specs.Prelude.{◌≡◌};
    ghost use Rattle.editions.specs.declared.Unanswered.TheVariants.{Refused};

    ghost from_gives = { λ refusal e. e ≡ Refused refusal };

    fn from(refusal: Refusal) -> Unanswered {
        Unanswered::Refused(refusal)
    }
}

// A candidate that opens the file: its place, counted from 0, and its part of the lent buffer.
#[derive(Clone, Copy, PartialEq, Eq, Debug)]
pub struct Candidate {
    pub place: usize,
    pub start: usize,
    pub length: usize,
}

// How a question ended, and the number of the key that it was asked of, 0 where no key stands. That no candidate opens the file is
// no refusal.
#[derive(Clone, Copy, PartialEq, Eq, Debug)]
pub struct Found {
    pub ended: Result<Option<Candidate>, Unanswered>,
    pub key: u16,
}

// The lent labels: they stand one after another in one buffer, and `lengths` has the length of each, as the exported call is lent them.
#[derive(Clone, Copy)]
struct Candidates<'a> {
    labels: &'a [u8],
    lengths: &'a [usize],
    ghost add_up: { sum lengths.now ≡ length labels.now },
}

// The sum of the lengths, if it does not wrap.
fn total(lengths: &[usize]) -> Option<usize>
    ensures { SomeIff result (sum lengths.now < 2 ^ 64) (sum lengths.now) }
{
    let mut total = 0usize;
    for length in lengths {
        total = total.checked_add(*length)?;
    }
    Some(total)
}

fn any_too_long(lengths: &[usize]) -> bool
    ensures { result ≡ any_too_long lengths.now }
{
    lengths.iter().any(|length| *length > LIMIT)
}

impl<'a> Candidates<'a> {
    // The candidates of a list that is not bad.
    fn of(labels: &'a [u8], lengths: &'a [usize]) -> Option<Candidates<'a>>
        ensures { MatchOption result (bad_list labels.now lengths.now ≡ true) (λ c.
            (bad_list labels.now lengths.now ≡ false) × (c.labels.now ≡ labels.now) × (c.lengths.now ≡ lengths.now)) }
    {
        if lengths.len() > MOST || total(lengths) != Some(labels.len()) {
            return None;
        }
        Some(Candidates { labels, lengths })
    }

    // All that is refused of a list in order, before a tag is looked at.
    #[tactic(auto, unfolding(crate::specs::Which::search_check))]
    fn check(self, cipher: Sm4Cipher, iv: usize, file: usize) -> Result<(), Refusal>
        ensures { result ≡ search_check cipher.answer cipher.retired iv file self.entry.lengths.now }
    {
        checks::key_and_iv(
            cipher.answer,
            cipher.retired,
            Direction::Decrypt,
            CipherMode::Gcm,
            iv,
        )?;
        if any_too_long(self.lengths) {
            return Err(Refusal::TooLong);
        }
        checks::data(Direction::Decrypt, CipherMode::Gcm, file)
    }

    // The first that opens the file: each one's hash is joined to what is kept of the text.
    fn search(self, mask: [u32; 4], h: U128, half: Half, file: &[u8]) -> Option<Candidate>
        requires half_of { HalfOf (value h) (blocks (text_part file.now)) half }
        requires file_value { data_check Direction.Decrypt CipherMode.Gcm (length file.now) ≡ Ok tt }
        requires lengths_value { any_too_long self.lengths.now ≡ false }
        ensures { found_verdict result ≡ first_opening (opens_masked (unwords mask) (value h) file.now) self.entry.labels.now self.entry.lengths.now 0 0 }
    {
        let mut start = 0;
        for (place, length) in self.lengths.iter().enumerate() {
            let length = *length;
            let end = start + length;
            if gcm::opens_after(mask, h, half, &self.labels[start..end], file) {
                return Some(Candidate {
                    place,
                    start,
                    length,
                });
            }
            start = end;
        }
        None
    }

    // The search by an engine and round keys: H and the cipher of J0 are made once, and the text is hashed once, unless nobody asks.
    fn search_under(
        self,
        engine: Engine,
        rk: [u32; 32],
        file: &[u8],
        iv: &[u8],
    ) -> Option<Candidate>
        requires iv_value { wrong_iv CipherMode.Gcm (length iv.now) ≡ false }
        requires file_value { data_check Direction.Decrypt CipherMode.Gcm (length file.now) ≡ Ok tt }
        requires lengths_value { any_too_long self.lengths.now ≡ false }
        ensures { found_verdict result ≡ first_opening (opens_file rk (hash_key rk) (J0 rk iv.now) file.now) self.entry.labels.now self.entry.lengths.now 0 0 }
    {
        if self.lengths.is_empty() {
            return None;
        }
        let h = gcm::hash_key(engine, rk);
        let mask = cipher::encrypt(engine, rk, gcm::first_counter(h, iv));
        self.search(mask, h, Half::of(h, gcm::text_part(file)), file)
    }

    // The first that the file opens under, with a key's record.
    fn ask(self, cipher: Sm4Cipher, file: &[u8], iv: &[u8]) -> Result<Option<Candidate>, Unanswered>
        ensures { ended_verdict result ≡ checked_verdict
            (search_check cipher.answer cipher.retired (length iv.now) (length file.now) self.entry.lengths.now)
            (first_opening (opens_with cipher iv.now file.now) self.entry.labels.now self.entry.lengths.now 0 0) }
    {
        self.check(cipher, iv.len(), file.len())?;
        let engine = cipher_mode::engine_for(cipher.engine, CipherMode::Gcm, Direction::Decrypt);
        Ok(self.search_under(engine, cipher.rk, file, iv))
    }
}

// The first of the candidates that the sealed file opens under, with a key's record, retired or not. The candidates are lent one
// after another in `labels`, and `lengths` has the length of each.
pub fn which(cipher: Sm4Cipher, file: &[u8], iv: &[u8], labels: &[u8], lengths: &[usize]) -> Found
    ensures { verdict_of result ≡ which cipher file.now iv.now labels.now lengths.now }
{
    let Some(candidates) = Candidates::of(labels, lengths) else {
        return Found {
            ended: Err(Unanswered::BadList),
            key: 0,
        };
    };
    Found {
        ended: candidates.ask(cipher, file, iv),
        key: cipher_mode::number_in(cipher.answer, cipher.number),
    }
}

// The label found, as a part of the buffer that the question was asked with; an empty part in every other answer, and where an
// answer that a caller made up points outside. Its last two lines stand in `shelf::part` too, and are no plainer by a function of `block`
// with a definition of its own.
pub fn part(labels: &[u8], found: Found) -> &[u8]
    ensures { result.now ≡ part_of (verdict_of found) labels.now }
{
    let Some(candidate) = found.ended.ok().flatten() else {
        return &[];
    };
    let behind = labels.get(candidate.start..).unwrap_or(&[]);
    behind.get(..candidate.length).unwrap_or(&[])
}
