// A journal of recorded calls, one after another, is replayed: each call is made again and held against what was recorded, and
// the report adds them up.
//
// A record is measured whole by the lengths that it states before anything else is asked of it: what is cut is 23, however long it says that
// its parts are. The recorded length of an output is that of the recorded output.

#![tactic(auto)]

mod again;
pub mod keys;
pub mod records;
pub mod report;
pub mod writer;

ghost use Rattle.std.specs.Prelude.{◌≡◌, ◌+◌, ◌≤◌, ◌<◌, ◌^◌, length, MatchResult, Err};
ghost use Rattle.journal.specs.KeyList.{keys_in};
ghost use Rattle.journal.specs.Reports.{Within};
ghost use Rattle.journal.specs.Replay.{ended, number_of_end, Turned, StopsBy, replay_one, replay};

use cipher_mode::Sm4Cipher;
use keys::Keys;
use report::Report;

// Why a replay stopped. A bad record is cut, unmarked, or has a bad direction; bad keys are over eight, a retired one or a number
// twice.
#[derive(Clone, Copy, PartialEq, Eq, Debug)]
pub enum Stop {
    BadRecord,
    TooLong,
    UnknownKey,
    BadKeys,
}

// A replay that stopped: why; the place of the first byte of the record that was refused, 0 where none was; and the report of the
// records before it.
#[derive(Clone, Copy)]
pub struct Stopped {
    pub why: Stop,
    pub place: usize,
    pub report: Report,
}

// The number of how a replay ended, as in docs/NUMBERS.md: 0 where all was replayed. It is no `From`, since it keeps its name, which
// docs/PROMISES.md has.
pub fn number(replayed: Result<Report, Stopped>) -> u32
    ensures { result ≡ number_of_end (ended replayed) }
{
    match replayed {
        Ok(_) => 0,
        Err(stopped) => match stopped.why {
            Stop::BadRecord => 23,
            Stop::TooLong => 24,
            Stop::UnknownKey => 25,
            Stop::BadKeys => 26,
        },
    }
}

// Makes the call of the record at the front of `s` again on the key that it names, and counts it: the report with it, and what is
// behind the record. What it requires stands in `step` and `replay_one` too, and in no type: `replay_one` is public and takes place and
// report apart.
fn count_front<'a>(
    keys: &[Sm4Cipher],
    s: &'a [u8],
    place: usize,
    report: Report,
) -> Result<(Report, &'a [u8]), Stop>
    requires within { Within place report }
    requires s_bound { place + length s.now < 2 ^ 64 }
    ensures { MatchResult result (Turned keys.now s.now place report) (StopsBy keys.now s.now place report) }
{
    let (call, rest) = records::read(s).ok_or(Stop::BadRecord)?;
    if call.too_long() {
        return Err(Stop::TooLong);
    }
    let key = keys::find(keys, call.key).ok_or(Stop::UnknownKey)?;
    let recomputed = again::recompute(key, &call);
    Ok((report.counted(&call, recomputed, place), rest))
}

// The same; or where, and with which report, the replay stops.
fn step<'a>(
    keys: &[Sm4Cipher],
    s: &'a [u8],
    place: usize,
    report: Report,
) -> Result<(Report, &'a [u8]), Stopped>
    requires within { Within place report }
    requires s_bound { place + length s.now < 2 ^ 64 }
    ensures { MatchResult result (Turned keys.now s.now place report) (λ x. replay_one keys.now s.now place report ≡ Err x) }
{
    count_front(keys, s, place, report).map_err(|why| Stopped { why, place, report })
}

// Replays the record at the front of `s`, which stands at `place` of the journal, and adds it to the report of those before it.
// A journal of any length is replayed so in a part of it at a time; to go on, go on behind `records::measure`.
pub fn replay_one(keys: Keys, s: &[u8], place: usize, report: Report) -> Result<Report, Stopped>
    requires count_bound { keys.count ≤ 8 }
    requires within { Within place report }
    requires s_bound { place + length s.now < 2 ^ 64 }
    ensures { result ≡ replay_one (keys_in keys) s.now place report }
{
    let (report, _) = step(&keys.keys[..keys.count], s, place, report)?;
    Ok(report)
}

// Replays a journal. The first difference is kept, and replay goes on.
pub fn replay(keys: Keys, journal: &[u8]) -> Result<Report, Stopped>
    ensures { result ≡ replay keys journal.now }
{
    let mut report = report::nothing();
    if keys::bad(keys) {
        return Err(Stopped {
            why: Stop::BadKeys,
            place: 0,
            report,
        });
    }
    let lent = &keys.keys[..keys.count];
    let mut rest = journal;
    while !rest.is_empty() {
        let place = journal.len() - rest.len();
        (report, rest) = step(lent, rest, place, report)?;
    }
    Ok(report)
}
