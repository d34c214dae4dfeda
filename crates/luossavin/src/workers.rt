// Ranges and plans, for a host: the calls of the crate `ranges` on the host's record.
ghost use Rattle.std.specs.Prelude.{◌≡◌};
ghost use Rattle.cipher_mode.specs.Outcome.{under};
ghost use Rattle.ranges.specs.ByPlan.{ended_head};
ghost use Rattle.ranges.specs.Plan.{accepts};
ghost use Rattle.luossavin.specs.Host.{head_in, reported};
ghost use Rattle.luossavin.specs.Ranges.{not_made_number, planned_reported, host_plan_make, host_ctr_range, host_ctr_by_plan};

use crate::in_pieces::direction_of;
use crate::key::LuossavinKey;
use crate::{LuossavinAnswer, numbered};
use cipher_mode::answer;
use ranges::by_plan::{ByPlan, NotDone};
use ranges::plan::{NotMade, Plan};
use ranges::{by_plan, plan, range};

// A plan beside the answer of its making; it has no pieces where that is refused.
#[repr(C)]
#[derive(Clone, Copy)]
pub struct LuossavinPlanned {
    pub answer: LuossavinAnswer,
    pub plan: Plan,
}

// Number and reason are types of other crates, so this is no `From`.
fn number_of(why: NotMade) -> u32
    ensures { result ≡ not_made_number why }
{
    match why {
        NotMade::BadWorkers => 17,
        NotMade::TooLong => 5,
    }
}

#[tactic(auto, unfolding(crate::specs::Ranges::host_plan_make))]
#[unsafe(no_mangle)]
pub extern "C" fn luossavin_plan_make(n: usize, workers: usize) -> LuossavinPlanned
    ensures { planned_reported result ≡ host_plan_make n workers }
{
    match plan::make(n, workers) {
        Ok(plan) => LuossavinPlanned {
            answer: numbered(0, 0),
            plan,
        },
        Err(why) => LuossavinPlanned {
            answer: numbered(number_of(why), 0),
            plan: plan::no_pieces(),
        },
    }
}

#[unsafe(no_mangle)]
pub extern "C" fn luossavin_plan_accepts(plan: Plan, n: usize) -> bool
    ensures { result ≡ accepts plan n }
{
    plan::accepts(plan, n)
}

#[tactic(auto, unfolding(crate::specs::Ranges::host_ctr_range))]
#[unsafe(no_mangle)]
pub extern "C" fn luossavin_ctr_range(
    key: LuossavinKey,
    decrypt: bool,
    iv: &[u8],
    offset: usize,
    data: &[u8],
    out: &mut [u8],
) -> LuossavinAnswer
    ensures { reported result out.new ≡ host_ctr_range key decrypt iv.now offset «data».now out.old }
{
    range::range(key.into(), direction_of(decrypt), iv, offset, data, out).into()
}

impl From<ByPlan> for LuossavinAnswer {
    ghost from_gives = { λ done told. head_in told ≡ under done.key (ended_head done.ended) };

    fn from(done: ByPlan) -> LuossavinAnswer {
        match done.ended {
            Ok(length) => answer::done(done.key, length).into(),
            Err(NotDone::NotAccepted) => numbered(18, done.key),
            Err(NotDone::Refused(refusal)) => answer::refused(done.key, refusal).into(),
        }
    }
}

#[tactic(auto, unfolding(crate::specs::Ranges::host_ctr_by_plan))]
#[unsafe(no_mangle)]
pub extern "C" fn luossavin_ctr_by_plan(
    key: LuossavinKey,
    decrypt: bool,
    iv: &[u8],
    plan: Plan,
    data: &[u8],
    out: &mut [u8],
) -> LuossavinAnswer
    ensures { reported result out.new ≡ host_ctr_by_plan key decrypt iv.now plan «data».now out.old }
{
    by_plan::by_plan(key.into(), direction_of(decrypt), iv, plan, data, out).into()
}
