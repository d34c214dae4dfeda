// The padding of Cbc, in `cbc_encrypt` and `cbc_decrypt` of libsm's `cipher_mode.rs`: put behind a message, and decided over.

#![tactic(auto)]

ghost use Rattle.std.specs.Prelude.{◌≡◌, ◌-◌, ◌<◌, ◌≤◌, length, drop, replicate};
ghost use Rattle.block.specs.Same.{same};
ghost use Rattle.padding.specs.Padding.{padded, unpadded};

// A rest shorter than a block, with its padding.
pub fn pad(rest: &[u8]) -> [u8; 16]
    requires { length rest.now < 16 }
    ensures { result ≡ padded rest.now }
{
    let mut last = [(16 - rest.len()) as u8; 16];
    last[..rest.len()].copy_from_slice(rest);
    last
}

// Why a decrypted text opens to no message: its last byte names no padding, or another byte of the padding that it names differs from it.
#[derive(Clone, Copy, PartialEq, Eq, Debug)]
pub enum BadPadding {
    InvalidLastU8,
    InvalidPadding,
}

// Whether the last `n` bytes of a block all hold `n`. All sixteen bytes are read, and no branch is taken on what they hold.
fn all_padding(last: [u8; 16], n: usize) -> bool
    requires { n ≤ 16 }
    ensures { result ≡ same (drop (16 - n) last) (replicate n n) }
{
    let mut differ: usize = 0;
    for (i, &byte) in last.iter().enumerate() {
        // 1 at a byte of the padding, 0 before it
        let counts = (i + n) / 16;
        differ += counts * (usize::from(byte) ^ n);
    }
    differ == 0
}

// The decision over the padding: how much of the last decrypted block belongs to the message.
pub fn unpad(last: [u8; 16]) -> Result<usize, BadPadding>
    ensures { result ≡ unpadded last }
{
    match last[15] {
        n @ 1..=16 if all_padding(last, usize::from(n)) => Ok(16 - usize::from(n)),
        1..=16 => Err(BadPadding::InvalidPadding),
        _ => Err(BadPadding::InvalidLastU8),
    }
}
