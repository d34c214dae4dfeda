// Gcm sealing in pieces: the ciphertext of each as it comes, and the tag at the end.
ghost use Rattle.std.specs.Prelude.{◌≡◌, []};
ghost use Rattle.pieces.specs.States.{seal_shut};
ghost use Rattle.pieces.specs.Calls.{stepped, seal_start, seal_piece, seal_end};

use crate::flow::{Counting, Flow};
use crate::hashing::Hashing;
use crate::{Shut, Step, checks, flow, not_begun, tagging, unmoved};
use cipher_mode::answer::Refusal;
use cipher_mode::{CipherMode, Direction, Sm4Cipher, answer};

// The round keys, the flow, the hash of what was written, the cipher of J0, the lengths and the number in J0's last four bytes; 0, or
// what every call answers; the key's number and the mark of its engine. A host in C hands it in and out: so `stands` and `engine` are
// numbers.
#[repr(C)]
#[derive(Clone, Copy)]
pub struct Seal {
    pub rk: [u32; 32],
    pub flow: Flow,
    pub hashing: Hashing,
    pub mask: [u8; 16],
    pub label: usize,
    pub total: usize,
    pub low: u32,
    pub stands: u32,
    pub key: u16,
    pub engine: u8,
}

impl Shut for Seal {
    ghost shut_state = { seal_shut };

    #[tactic(auto, unfolding(crate::specs::States::seal_shut))]
    fn shut(key: u16, stands: u32) -> Seal {
        Seal {
            rk: [0; 32],
            flow: Flow::default(),
            hashing: Hashing::default(),
            mask: [0; 16],
            label: 0,
            total: 0,
            low: 0,
            stands,
            key,
            engine: 0,
        }
    }
}

// Key, IV and label are checked as in the single call.
#[tactic(auto, unfolding(crate::specs::Calls::seal_start))]
pub fn start(cipher: Sm4Cipher, aad: &[u8], iv: &[u8]) -> Step<Seal>
    ensures { stepped result [] ≡ seal_start cipher aad.now iv.now }
{
    let key = cipher_mode::number_in(cipher.answer, cipher.number);
    let checked = checks::gcm_start(
        cipher.answer,
        cipher.retired,
        Direction::Encrypt,
        iv.len(),
        aad.len(),
    );
    if let Err(refusal) = checked {
        return not_begun(key, refusal);
    }
    let engine = cipher_mode::engine_for(cipher.engine, CipherMode::Gcm, Direction::Encrypt);
    let rk = cipher.rk;
    let begun = tagging::begin(engine, rk, aad, iv);
    let first = counter::gcm_block_add_one(begun.j0).counter;
    // A variable, since the borrow checker takes no array out of a field right into a literal.
    let mask = begun.mask;
    let state = Seal {
        rk,
        flow: flow::begin(engine, rk, first),
        hashing: begun.hashing,
        mask,
        label: aad.len(),
        total: 0,
        low: begun.low,
        stands: 0,
        key,
        engine: cipher.engine,
    };
    Step {
        answer: answer::done(key, 0),
        state,
    }
}

impl Seal {
    // A piece of any length, to the front of `out`. What was written is hashed.
    #[tactic(auto, unfolding(crate::specs::Calls::seal_piece))]
    pub fn piece(self, data: &[u8], out: &mut [u8]) -> Step<Seal>
        ensures { stepped result out.new ≡ seal_piece self «data».now out.old }
    {
        let n = data.len();
        if let Err(refusal) = checks::writing(
            self.stands,
            self.label,
            self.total,
            n,
            n,
            out.len(),
        ) {
            return unmoved(self.key, refusal, self);
        }
        let p = self.total % 16;
        let engine = cipher_mode::engine_for(self.engine, CipherMode::Gcm, Direction::Encrypt);
        let flow = flow::run(engine, self.rk, Counting::Gcm, self.flow, p, data, out);
        Step {
            answer: answer::done(self.key, n),
            state: Seal {
                flow,
                hashing: self.hashing.take_in(p, &out[..n]),
                total: self.total + n,
                stands: 0,
                ..self
            },
        }
    }

    // The end: the tag, to the front of `out`, and whether the counter came round. Nothing is kept.
    #[tactic(auto, unfolding(crate::specs::Calls::seal_end))]
    pub fn end(self, out: &mut [u8]) -> Step<Seal>
        ensures { stepped result out.new ≡ seal_end self out.old }
    {
        let total = self.total;
        let label = self.label;
        if let Err(refusal) = checks::writing(self.stands, label, total, 0, 16, out.len()) {
            return unmoved(self.key, refusal, self);
        }
        let hash = self.hashing.end(total % 16, label, total);
        sixteen::xor_bytes(&hash, &self.mask, out);
        let came_round = counter::gcm_came_round(self.low, total);
        Step {
            answer: answer::done_round(self.key, 16, came_round),
            state: Seal::shut(self.key, answer::number(Refusal::Ended)),
        }
    }
}
