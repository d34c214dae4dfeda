// Work by a plan: each piece by itself, as a worker does it.
ghost use Rattle.std.specs.Prelude.{◌≡◌, true, ◌≤◌, length};
ghost use Rattle.block.specs.Over.{over};
ghost use Rattle.cipher_mode.specs.Outcome.{leaving};
ghost use Rattle.walk.specs.Walk.{chain};
ghost use Rattle.stream.specs.Stream.{stream_mode};
ghost use Rattle.ranges.specs.Plan.{accepts};
ghost use Rattle.ranges.specs.ByPlan.{ended_head, plan_ended, planned_outcome, plan_call};

use crate::plan::Plan;
use crate::{plan, range};
use cipher::Engine;
use cipher_mode::answer::Refusal;
use cipher_mode::{Direction, Sm4Cipher};
use stream::Kind;

// Why nothing was done by a plan: it is not accepted, or the work is refused as the single call is.
#[derive(Clone, Copy, PartialEq, Eq, Debug)]
pub enum NotDone {
    NotAccepted,
    Refused(Refusal),
}

impl From<Refusal> for NotDone {
    ghost use Rattle.std.specs.Prelude.{◌≡◌};
    ghost use Rattle.ranges.specs.declared.by_plan.NotDone.TheVariants.{Refused};

    ghost from_gives = { λ refusal e. e ≡ Refused refusal };

    fn from(refusal: Refusal) -> NotDone {
        NotDone::Refused(refusal)
    }
}

// How it ended, done with a length or not done, and the number of the key that it was made on: 0 where no key stands.
#[derive(Clone, Copy, PartialEq, Eq, Debug)]
pub struct ByPlan {
    pub ended: Result<usize, NotDone>,
    pub key: u16,
}

// The pieces of an accepted plan one after the other: each starts where the one before ends.
fn put_pieces(engine: Engine, rk: [u32; 32], iv: &[u8], plan: Plan, data: &[u8], out: &mut [u8])
    requires iv_len { length iv.now ≡ 16 }
    requires data_value { accepts plan (length «data».now) ≡ true }
    requires data_in_bounds { length «data».now ≤ length out.old }
    ensures { out.new ≡ over (chain (stream_mode Kind.Ctr rk) iv.now «data».now) out.old }
{
    let mut at = 0;
    for (start, length) in plan.starts.iter().zip(&plan.lengths).take(plan.count) {
        let end = at + *length;
        range::put_stretch(engine, rk, iv, *start, &data[at..end], &mut out[at..]);
        at = end;
    }
}

fn planned(
    cipher: Sm4Cipher,
    direction: Direction,
    iv: &[u8],
    plan: Plan,
    data: &[u8],
    out: &mut [u8],
) -> Result<usize, NotDone>
    ensures { leaving (ended_head result) out.new ≡ plan_ended direction cipher iv.now plan «data».now out.old }
{
    let n = data.len();
    range::reach(cipher, direction, iv.len(), 0, n)?;
    if !plan::accepts(plan, n) {
        return Err(NotDone::NotAccepted);
    }
    if out.len() < n {
        return Err(NotDone::Refused(Refusal::NoRoom));
    }
    // Counters do not wait for one another.
    let engine = cipher::engine_of(cipher.engine, false);
    put_pieces(engine, cipher.rk, iv, plan, data, out);
    Ok(n)
}

// A message in Ctr, either way, to the front of `out`, by a plan: the single call's bytes, whoever made the plan.
#[tactic(auto, unfolding(crate::specs::ByPlan::plan_call))]
pub fn by_plan(
    cipher: Sm4Cipher,
    direction: Direction,
    iv: &[u8],
    plan: Plan,
    data: &[u8],
    out: &mut [u8],
) -> ByPlan
    ensures { planned_outcome result out.new ≡ plan_call direction cipher iv.now plan «data».now out.old }
{
    ByPlan {
        ended: planned(cipher, direction, iv, plan, data, out),
        key: cipher_mode::number_in(cipher.answer, cipher.number),
    }
}
