// The report of a replay, as a running value.
ghost use Rattle.std.specs.Prelude.{◌≡◌, ◌+◌, ◌≤◌, ◌<◌, ◌^◌, length};
ghost use Rattle.journal.specs.Reading.{entry_of};
ghost use Rattle.journal.specs.Reports.{nothing, mode_place, counted, Within};

use crate::again::Recomputed;
use crate::records::Call;

// The first record that differs: how many records are before it, and the place of its first byte.
#[derive(Clone, Copy)]
pub struct Difference {
    pub index: u64,
    pub place: usize,
}

// How many records there were; how many in each mode, those of no known mode last; how many with each recomputed number; the
// bytes of data that went in, of refused calls too, and those that came out; and the first that differs, if one does.
#[derive(Clone, Copy)]
pub struct Report {
    pub records: u64,
    pub by_mode: [u64; 6],
    pub by_answer: [u64; 32],
    pub bytes_in: u64,
    pub bytes_out: u64,
    pub first: Option<Difference>,
}

// The report before the first record.
pub fn nothing() -> Report
    ensures { result ≡ nothing }
{
    Report {
        records: 0,
        by_mode: [0; 6],
        by_answer: [0; 32],
        bytes_in: 0,
        bytes_out: 0,
        first: None,
    }
}

fn mode_place(mode: u8) -> usize
    ensures value { result ≡ mode_place mode }
    ensures upper_bound { result < 6 }
{
    (mode as usize).min(5)
}

impl Report {
    // The report with one more record, which stands at `place`.
    pub(crate) fn counted(self, call: &Call<'_>, x: Recomputed, place: usize) -> Report
        requires number_bound { x.number < 27 }
        requires length_bound { x.length ≤ 16 + length call.now.data.now }
        requires within { Within place self }
        requires data_bound { place + 27 + length call.now.data.now < 2 ^ 64 }
        ensures { result ≡ counted (entry_of call.now) x place self }
    {
        let mut report = self;
        report.records += 1;
        report.by_mode[mode_place(call.mode)] += 1;
        report.by_answer[x.number as usize] += 1;
        report.bytes_in += call.data.len() as u64;
        report.bytes_out += x.length as u64;
        if x.differs {
            report.first = report.first.or(Some(Difference {
                index: self.records,
                place,
            }));
        }
        report
    }
}
