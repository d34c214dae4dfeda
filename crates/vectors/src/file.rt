// The file of vectors: hex digits that spell fields, each a byte that says how long it is and then its bytes; and six fields are a
// vector.
ghost use Rattle.std.specs.Prelude.{◌≤◌, length};

// What a vector is of.
#[derive(Clone, Copy, PartialEq, Eq, Debug)]
pub(crate) enum Kind {
    Cfb,
    Ofb,
    Ctr,
    Cbc,
    Gcm,
    Block,
    // A block, encrypted 1,000,000 times over.
    Million,
    // GHASH, with H in the key's place.
    Hash,
    // Of no kind that there is: ours takes it as Gcm, and the independent one as Cfb.
    Unknown,
}

impl From<&[u8]> for Kind {
    fn from(field: &[u8]) -> Kind {
        match field {
            [0] => Kind::Cfb,
            [1] => Kind::Ofb,
            [2] => Kind::Ctr,
            [3] => Kind::Cbc,
            [4] => Kind::Gcm,
            [5] => Kind::Block,
            [6] => Kind::Million,
            [7] => Kind::Hash,
            _ => Kind::Unknown,
        }
    }
}

#[derive(Clone, Copy)]
pub(crate) struct Vector<'a> {
    pub(crate) kind: Kind,
    pub(crate) key: &'a [u8],
    pub(crate) iv: &'a [u8],
    pub(crate) label: &'a [u8],
    pub(crate) text: &'a [u8],
    pub(crate) expected: &'a [u8],
}

impl<'a> Vector<'a> {
    // The vector at the front of the bytes, and those behind it; none where they are at their end.
    pub(crate) fn read(bytes: &'a [u8]) -> Option<(Vector<'a>, &'a [u8])> {
        if bytes.is_empty() {
            return None;
        }
        let (kind, rest) = field(bytes);
        let (key, rest) = field(rest);
        let (iv, rest) = field(rest);
        let (label, rest) = field(rest);
        let (text, rest) = field(rest);
        let (expected, rest) = field(rest);
        let vector = Vector {
            kind: Kind::from(kind),
            key,
            iv,
            label,
            text,
            expected,
        };
        Some((vector, rest))
    }
}

// The field at the front of the bytes, and those behind it. It ends where they do, if that is sooner.
fn field(bytes: &[u8]) -> (&[u8], &[u8]) {
    match bytes.split_first() {
        Some((length, rest)) => rest.split_at(rest.len().min(*length as usize)),
        None => (bytes, bytes),
    }
}

// The value of a hex digit.
fn digit(b: u8) -> Option<u8> {
    match b {
        b'0'..=b'9' => Some(b - b'0'),
        b'a'..=b'f' => Some(b - b'a' + 10),
        _ => None,
    }
}

// Puts the bytes that a file spells to its own front, and says how many they are. Comments, from # to the end of the line, and blanks and
// line ends spell nothing.
pub(crate) fn spelled(file: &mut [u8]) -> usize
    ensures { result ≤ length file.new }
{
    let mut comment = false;
    let mut half = None;
    let mut n = 0;
    for i in 0..file.len() {
        let b = file[i];
        comment = b == b'#' || comment && b != b'\n';
        if comment {
            continue;
        }
        if let Some(digit) = digit(b) {
            match half {
                None => half = Some(digit),
                Some(high) => {
                    file[n] = high << 4 | digit;
                    n += 1;
                    half = None;
                }
            }
        }
    }
    n
}
