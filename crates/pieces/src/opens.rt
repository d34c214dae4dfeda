// Whether a sealed message opens that comes in pieces, with its tag at the end. No text is written.
ghost use Rattle.std.specs.Prelude.{◌≡◌, [], length};
ghost use Rattle.block.specs.Same.{same};
ghost use Rattle.block.specs.Xor.{xors};
ghost use Rattle.pieces.specs.States.{opens_shut};
ghost use Rattle.pieces.specs.Calls.{stepped, opens_start, opens_piece, opens_end};

use crate::hashing::Hashing;
use crate::{Shut, Step, checks, not_begun, tagging, unmoved};
use cipher_mode::answer::Refusal;
use cipher_mode::{CipherMode, Direction, Sm4Cipher, answer};

// The hash, the cipher of J0, the lengths and the number in J0's last four bytes; 0, or what every call answers; the key's number. The
// round keys are needed no more. A host in C hands it in and out: so `stands` is a number.
#[repr(C)]
#[derive(Clone, Copy)]
pub struct Opens {
    pub hashing: Hashing,
    pub mask: [u8; 16],
    pub label: usize,
    pub total: usize,
    pub low: u32,
    pub stands: u32,
    pub key: u16,
}

impl Shut for Opens {
    ghost shut_state = { opens_shut };

    #[tactic(auto, unfolding(crate::specs::States::opens_shut))]
    fn shut(key: u16, stands: u32) -> Opens {
        Opens {
            hashing: Hashing::default(),
            mask: [0; 16],
            label: 0,
            total: 0,
            low: 0,
            stands,
            key,
        }
    }
}

// Key, IV and label are checked as in the single call. It goes as `seal::start` does but for the direction and the state; what the two
// share beyond the checks stands in `tagging::begin`.
#[tactic(auto, unfolding(crate::specs::Calls::opens_start, crate::specs::States::opens_after))]
pub fn start(cipher: Sm4Cipher, aad: &[u8], iv: &[u8]) -> Step<Opens>
    ensures { stepped result [] ≡ opens_start cipher aad.now iv.now }
{
    let key = cipher_mode::number_in(cipher.answer, cipher.number);
    let checked = checks::gcm_start(
        cipher.answer,
        cipher.retired,
        Direction::Decrypt,
        iv.len(),
        aad.len(),
    );
    if let Err(refusal) = checked {
        return not_begun(key, refusal);
    }
    let engine = cipher_mode::engine_for(cipher.engine, CipherMode::Gcm, Direction::Decrypt);
    let begun = tagging::begin(engine, cipher.rk, aad, iv);
    // A variable, since the borrow checker takes no array out of a field right into a literal.
    let mask = begun.mask;
    let state = Opens {
        hashing: begun.hashing,
        mask,
        label: aad.len(),
        total: 0,
        low: begun.low,
        stands: 0,
        key,
    };
    Step {
        answer: answer::done(key, 0),
        state,
    }
}

// Whether the tag is the one of mask and hash.
fn same_tag(tag: &[u8], mask: [u8; 16], hash: [u8; 16]) -> bool
    requires { length tag.now ≡ 16 }
    ensures { result ≡ same tag.now (xors mask hash) }
{
    let expected = block::block_xor(block::split_block(&mask), block::split_block(&hash));
    gcm::is_tag(tag, expected)
}

impl Opens {
    // A piece of the ciphertext.
    #[tactic(auto, unfolding(crate::specs::Calls::opens_piece))]
    pub fn piece(self, data: &[u8]) -> Step<Opens>
        ensures { stepped result [] ≡ opens_piece self «data».now }
    {
        let n = data.len();
        if let Err(refusal) = checks::running(self.stands, self.label, self.total, n) {
            return unmoved(self.key, refusal, self);
        }
        Step {
            answer: answer::done(self.key, 0),
            state: Opens {
                hashing: self.hashing.take_in(self.total % 16, data),
                total: self.total + n,
                stands: 0,
                ..self
            },
        }
    }

    // The end: 0 where the message opens with this tag, and whether the counter came round; otherwise 4. Either way nothing is kept.
    #[tactic(auto, unfolding(crate::specs::Calls::opens_end))]
    pub fn end(self, tag: &[u8]) -> Step<Opens>
        ensures { stepped result [] ≡ opens_end self tag.now }
    {
        let total = self.total;
        let label = self.label;
        if let Err(refusal) = checks::tagged(self.stands, label, total, tag.len()) {
            return unmoved(self.key, refusal, self);
        }
        let hash = self.hashing.end(total % 16, label, total);
        let answer = if same_tag(tag, self.mask, hash) {
            answer::done_round(self.key, 0, counter::gcm_came_round(self.low, total))
        } else {
            answer::refused(self.key, Refusal::InvalidTag)
        };
        Step {
            answer,
            state: Opens::shut(self.key, answer::number(Refusal::Ended)),
        }
    }
}
