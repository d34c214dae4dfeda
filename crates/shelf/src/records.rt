// The record at the front of a part of a shelf.
ghost use Rattle.std.specs.Prelude.{◌≡◌, ◌&&◌, not, ◌∷◌, ◌++◌, ◌≤◌, leb, eqb, length};
ghost use Rattle.block.specs.BigEndian.{bytes_of};
ghost use Rattle.label.specs.Label.{label_of};
ghost use Rattle.shelf.specs.Records.{marked, head_at};
ghost use Rattle.shelf.specs.Steps.{comes};

// Mark, job, edition and length, in bytes.
pub(crate) const HEAD: usize = 12;

const MARK: u8 = 0x52;

const CURRENT: u8 = 0x44;

pub(crate) const SUPERSEDED: u8 = 0x58;

// What the first bytes of a record say, and how many bytes it has, these included.
#[derive(Clone, Copy, PartialEq, Eq, Debug)]
pub struct Head {
    pub size: usize,
    pub current: bool,
    pub job: u32,
    pub edition: u16,
}

impl Head {
    // Whether it is the head of a job's current record.
    pub(crate) fn is_current_of(self, job: u32) -> bool
        ensures { result ≡ self.current && eqb self.job job }
    {
        self.current && self.job == job
    }

    // Whether it is a record of the job, with an edition of at least this one.
    pub(crate) fn reaches(self, job: u32, edition: u16) -> bool
        ensures { result ≡ eqb self.job job && leb edition self.edition }
    {
        self.job == job && edition <= self.edition
    }

    // Whether a collection keeps the record: a current one, but not of the job whose new record is coming.
    pub(crate) fn stays(self, coming: Option<u32>) -> bool
        ensures { result ≡ not (comes coming self.job) && self.current }
    {
        coming != Some(self.job) && self.current
    }
}

// Whether `s` starts with one of the two marks.
fn marked(s: &[u8]) -> bool
    requires { 12 ≤ length s.now }
    ensures { result ≡ marked s.now }
{
    s[0] == MARK && (s[1] == CURRENT || s[1] == SUPERSEDED)
}

// The head of the record at the front of `s`, if one stands whole there. To list a shelf, go on behind its size. What a length
// field says is compared with what is left, so no sum wraps.
pub fn front(s: &[u8]) -> Option<Head>
    ensures { result ≡ head_at s.now }
{
    let (head, rest) = s.split_first_chunk::<HEAD>()?;
    if !marked(head) {
        return None;
    }
    let sealed = block::word_at(head, 8) as usize;
    if sealed > rest.len() {
        return None;
    }
    Some(Head {
        size: HEAD + sealed,
        current: head[1] == CURRENT,
        job: block::word_at(head, 2),
        edition: u16::from_be_bytes([head[6], head[7]]),
    })
}

// The head of a current record.
pub(crate) fn new_head(job: u32, edition: u16, n: u32) -> [u8; HEAD]
    ensures { result ≡ 0x52 ∷ 0x44 ∷ (label_of job edition ++ bytes_of 4 n) }
{
    let mut head = [MARK; HEAD];
    head[1] = CURRENT;
    head[2..8].copy_from_slice(&label::label(job, edition));
    head[8..].copy_from_slice(&n.to_be_bytes());
    head
}
