// Several workers on one long message: Ctr from any byte on, a plan of who does which stretch, and its check.

#![tactic(auto)]

pub mod by_plan;
pub mod plan;
pub mod range;
