// Ctr in pieces, either way.
ghost use Rattle.std.specs.Prelude.{◌≡◌, []};
ghost use Rattle.pieces.specs.States.{ctr_shut};
ghost use Rattle.pieces.specs.Calls.{stepped, ctr_start, ctr_piece, ctr_end};

use crate::flow::{Counting, Flow};
use crate::{Shut, Step, checks, flow, not_begun, unmoved};
use cipher_mode::answer::Refusal;
use cipher_mode::{CipherMode, Direction, Sm4Cipher, answer};

// The round keys, the flow, the first counter, and how many bytes went through; 0, or what every call answers; the key's number
// and the mark of its engine. A host in C hands it in and out: so `stands` and `engine` are numbers.
#[repr(C)]
#[derive(Clone, Copy)]
pub struct Ctr {
    pub rk: [u32; 32],
    pub flow: Flow,
    pub first: [u8; 16],
    pub total: usize,
    pub stands: u32,
    pub key: u16,
    pub engine: u8,
}

impl Shut for Ctr {
    ghost shut_state = { ctr_shut };

    #[tactic(auto, unfolding(crate::specs::States::ctr_shut))]
    fn shut(key: u16, stands: u32) -> Ctr {
        Ctr {
            rk: [0; 32],
            flow: Flow::default(),
            first: [0; 16],
            total: 0,
            stands,
            key,
            engine: 0,
        }
    }
}

// Key and IV are checked as in the single call of that direction; from here on the two are the same.
#[tactic(auto, unfolding(crate::specs::Calls::ctr_start))]
pub fn start(direction: Direction, cipher: Sm4Cipher, iv: &[u8]) -> Step<Ctr>
    ensures { stepped result [] ≡ ctr_start direction cipher iv.now }
{
    let key = cipher_mode::number_in(cipher.answer, cipher.number);
    let checked = cipher_mode::checks::key_and_iv(
        cipher.answer,
        cipher.retired,
        direction,
        CipherMode::Ctr,
        iv.len(),
    );
    if let Err(refusal) = checked {
        return not_begun(key, refusal);
    }
    let engine = cipher_mode::engine_for(cipher.engine, CipherMode::Ctr, direction);
    let rk = cipher.rk;
    let flow = flow::begin(engine, rk, block::split_block(iv));
    // A variable, since the borrow checker takes no array out of a field right into a literal.
    let first = flow.counter;
    let state = Ctr {
        rk,
        flow,
        first,
        total: 0,
        stands: 0,
        key,
        engine: cipher.engine,
    };
    Step {
        answer: answer::done(key, 0),
        state,
    }
}

impl Ctr {
    // A piece of any length, to the front of `out`.
    #[tactic(auto, unfolding(crate::specs::Calls::ctr_piece))]
    pub fn piece(self, data: &[u8], out: &mut [u8]) -> Step<Ctr>
        ensures { stepped result out.new ≡ ctr_piece self «data».now out.old }
    {
        let n = data.len();
        if let Err(refusal) = checks::writing(self.stands, 0, self.total, n, n, out.len()) {
            return unmoved(self.key, refusal, self);
        }
        let flow = flow::run(
            cipher_mode::engine_for(self.engine, CipherMode::Ctr, Direction::Encrypt),
            self.rk,
            Counting::Ctr,
            self.flow,
            self.total % 16,
            data,
            out,
        );
        Step {
            answer: answer::done(self.key, n),
            state: Ctr {
                flow,
                total: self.total + n,
                stands: 0,
                ..self
            },
        }
    }

    // The end of the message, which tells whether its counter came round. Nothing is kept.
    #[tactic(auto, unfolding(crate::specs::Calls::ctr_end))]
    pub fn end(self) -> Step<Ctr>
        ensures { stepped result [] ≡ ctr_end self }
    {
        if let Err(refusal) = checks::running(self.stands, 0, self.total, 0) {
            return unmoved(self.key, refusal, self);
        }
        let came_round = counter::ctr_came_round(block::split_block(&self.first), self.total);
        Step {
            answer: answer::done_round(self.key, 0, came_round),
            state: Ctr::shut(self.key, answer::number(Refusal::Ended)),
        }
    }
}
