// A message that comes in pieces, cut anywhere: Ctr, Gcm sealing, and whether a sealed message opens. Each has a start, a
// call for every piece and an end. The state goes in by value and comes back beside the answer. No call has a `requires`:
// whatever the fields of a state hold, the contract gives the whole outcome, by one definition of `specs/Calls.antt`.
//
// A state is bytes alone, so that what a host hands over has one reading. `stands` is 0 while a message runs, and otherwise what every call
// answers: 1, 5, 10, 13 or 14 after a refused start, 12 for every other value. The cipher of the begun block is kept, so that no block is
// encrypted twice. The place in a block is the total modulo 16. An opening keeps no round keys.

#![tactic(auto)]

pub mod checks;
pub mod ctr;
pub mod flow;
pub mod hashing;
pub mod opens;
pub mod seal;
mod tagging;

ghost use Rattle.std.specs.Prelude.{◌≡◌, ℕ};
ghost use Rattle.cipher_mode.specs.Answer.{refusal_head, head_of};
ghost use Rattle.cipher_mode.specs.Outcome.{under};

use cipher_mode::answer;
use cipher_mode::answer::{Answer, Refusal};

// What a call answers, and the state that it leaves. A refusal leaves one too, so `?` does not serve where it is met.
#[derive(Clone, Copy)]
pub struct Step<S> {
    pub answer: Answer,
    pub state: S,
}

// A state that is no message's: zeros, but for the number of its key and that of what every call answers. No Default, since a state of
// nothing but zeros would run.
pub(crate) trait Shut {
    ghost shut_state: { ℕ → ℕ → Self };

    fn shut(key: u16, stands: u32) -> Self
        ensures { result ≡ shut_state key stands };
}

// A refused start: every call refuses its state by the same number.
pub(crate) fn not_begun<S: Shut>(key: u16, refusal: Refusal) -> Step<S>
    ensures answer_value { head_of result.answer ≡ under key (refusal_head refusal) }
    ensures state_value { result.state ≡ S.shut_state key (refusal_head refusal).number }
{
    Step {
        answer: answer::refused(key, refusal),
        state: S::shut(key, answer::number(refusal)),
    }
}

// A refused piece or end: the state is handed back as it came.
pub(crate) fn unmoved<S>(key: u16, refusal: Refusal, state: S) -> Step<S>
    ensures answer_value { head_of result.answer ≡ under key (refusal_head refusal) }
    ensures state_value { result.state ≡ state }
{
    Step {
        answer: answer::refused(key, refusal),
        state,
    }
}
