// Replays libsm's recorded answers, read from the file that its first argument names, and says how many
// agree, part by part; the other arguments are the parts' names. Each is replayed under the marks 0 to 3 of
// an engine, and agrees where it does under all. A record agrees where number, length and
// every byte of the output are as recorded, the missing count and the key's number go with them, and
// every byte past the length is as it was lent; and, of a 12-byte IV in Gcm, which libsm refuses and ours
// takes, and of a padding that libsm takes by its last byte alone and ours refuses, where ours does just that.
// README.md beside this crate's folders has the form of the file and what its parts are.

#![tactic(auto)]

mod due;
mod list;

use cipher_mode::answer::Answer;
use cipher_mode::{CipherMode, Direction, Sm4Cipher, Sm4CipherMode, answer};
use due::Due;
use list::{Called, Record};
use std::{env, fmt, fs, io};

// The number of every key here: libsm's keys have none, and ours want one.
const NUMBER: u16 = 1;

// What the output buffer holds before a call.
const LENT: u8 = 0xa5;

// The room of a call, more than any needs.
const ROOM: usize = 8192;

// No more of the file is looked at.
const MOST: usize = 1_000_000;

// A call's answer: number, missing count, the key's number and length. It is told by numbers, since libsm's names stand for numbers.
#[derive(Clone, Copy)]
struct Told {
    number: u32,
    missing: u8,
    key: u16,
    length: usize,
}

impl From<Answer> for Told {
    fn from(answer: Answer) -> Told {
        let key = answer.key;
        match answer.ending {
            Ok(done) => Told {
                number: 0,
                missing: 0,
                key,
                length: done.length,
            },
            Err(refusal) => Told {
                number: answer::number(refusal),
                missing: answer::missing(refusal),
                key,
                length: 0,
            },
        }
    }
}

// What an answer of this number says is missing: refusal 9 what the data lacks of a tag's 16 bytes, and every other answer 0.
fn lacks(number: u32, data: usize) -> Option<u8> {
    match number {
        9 if data < 16 => Some(16 - data as u8),
        9 => None,
        _ => Some(0),
    }
}

// The key's number in an answer: refusal 1 has no key, and every other answer repeats its number.
fn key_in(number: u32) -> u16 {
    if number == 1 { 0 } else { NUMBER }
}

// Whether an answer has a number that it may have, and missing count and key's number go with it.
fn is_due(told: Told, record: &Record<'_>) -> bool {
    record.due.allows(told.number)
        && lacks(told.number, record.data.len()) == Some(told.missing)
        && told.key == key_in(told.number)
}

// Makes the call of a record with the mark of an engine.
fn call(record: &Record<'_>, mark: u8, out: &mut [u8]) -> Told {
    let cipher = Sm4Cipher::new(record.key, NUMBER as u32).with_engine(mark);
    let answer = match record.called {
        Called::Block => cipher.call(record.direction, record.data, out),
        Called::Mode(mode) => {
            let keyed = Sm4CipherMode { cipher, mode };
            keyed.call(record.direction, record.label, record.data, record.iv, out)
        }
    };
    Told::from(answer)
}

// Whether no byte was written. All bytes are looked at: a loop that stops at the first that differs takes many times as long.
fn untouched(out: &[u8]) -> bool {
    out.iter().fold(0, |seen, b| seen | (b ^ LENT)) == 0
}

// The first `n` bytes and the others; no others where there are no more.
fn split(s: &[u8], n: usize) -> (&[u8], &[u8]) {
    s.split_at(n.min(s.len()))
}

// Whether a call wrote `expected` and nothing past it; nothing at all where it was refused.
fn wrote(told: Told, out: &[u8], expected: &[u8]) -> bool {
    if told.number != 0 {
        return untouched(out);
    }
    let (written, past) = split(out, told.length);
    written == expected && untouched(past)
}

// Whether a text that was sealed under a 12-byte IV, for which libsm has no bytes to compare, is 16 bytes longer than the text,
// and opens to it.
fn opens(record: &Record<'_>, mark: u8, told: Told, out: &[u8]) -> bool {
    let (sealed, past) = split(out, told.length);
    let opening = Record {
        direction: Direction::Decrypt,
        called: Called::Mode(CipherMode::Gcm),
        data: sealed,
        ..*record
    };
    let mut text = [LENT; ROOM];
    let back = call(&opening, mark, &mut text);
    told.length.checked_sub(16) == Some(record.data.len())
        && untouched(past)
        && wrote(back, &text, record.data)
}

// Whether a call answers as recorded on the engine that a mark names.
fn agrees_on(record: &Record<'_>, mark: u8) -> bool {
    let mut out = [LENT; ROOM];
    let told = call(record, mark, &mut out);
    is_due(told, record)
        && match record.due {
            Due::TwelveSealed => opens(record, mark, told, &out),
            _ => wrote(told, &out, record.output),
        }
}

// Whether it does under every mark: each engine has one of these, and what is left names none.
fn agrees(record: &Record<'_>) -> bool {
    (0..4u8).all(|mark| agrees_on(record, mark))
}

// How many records were replayed, and how many of them differ.
#[derive(Clone, Copy, Default)]
struct Counts {
    replayed: u64,
    differ: u64,
}

impl Counts {
    // With one record more. The counts stay far below what a u64 holds.
    fn with(self, differs: bool) -> Counts {
        Counts {
            replayed: self.replayed.wrapping_add(1),
            differ: self.differ.wrapping_add(differs as u64),
        }
    }
}

impl fmt::Display for Counts {
    fn fmt<W: fmt::Write>(&self, f: &mut fmt::Formatter<W>) -> fmt::Result {
        write!(f, "{} replayed {} differ", self.replayed, self.differ)
    }
}

// Writes the line of a part that has records, by its name: the argument behind the file's that has its number.
fn write_part(rt: &HostRuntime, names: &[String], part: u8, counts: Counts) -> io::Result<()> {
    if counts.replayed == 0 {
        return Ok(());
    }
    if let Some(name) = names.get(part as usize) {
        print!(rt; "{name}")?;
    }
    print!(rt; ": ")?;
    println!(rt; "{counts}")
}

// Replays the whole list and writes how it went. A part's line is written where the next part starts.
fn replay_all(rt: &HostRuntime, names: &[String], file: &[u8]) -> io::Result<()> {
    let (count, records) = list::opened(file).unwrap_or((0, &[]));
    let mut rest = records;
    let mut part = 0;
    let mut in_part = Counts::default();
    let mut all = Counts::default();
    for before in 0..count {
        let number = before as u64 + 1;
        let Some((record, behind)) = Record::read(rest) else {
            return println!(rt; "the list is cut at record {number}");
        };
        rest = behind;
        let differs = !agrees(&record);
        if differs {
            println!(rt; "record {number} differs")?;
        }
        if record.part != part {
            write_part(rt, names, part, in_part)?;
            part = record.part;
            in_part = Counts::default();
        }
        in_part = in_part.with(differs);
        all = all.with(differs);
    }
    write_part(rt, names, part, in_part)?;
    println!(rt; "{all}")
}

fn main(rt: HostRuntime) -> io::Result<()> {
    let names: Vec<String> = env::args(&rt)?.skip(1).collect(rt.alloc())?;
    let path = names.first().map_or("", |path| path.as_str());
    let file = fs::read(&rt, path)?;
    let looked_at = file.len().min(MOST);
    replay_all(&rt, names.as_slice(), &file.as_slice()[..looked_at])
}
