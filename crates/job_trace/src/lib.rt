//! Traces of jobs: which threads come to which core in which round, and what each of them runs. A text is read into
//! a trace, and a trace is made into a plan for a policy.
#![tactic(auto)]

mod constants;
mod fault;
mod fitting;
mod form;
mod given;
mod laws;
mod plan_fault;
mod planning;
mod programs;
mod ranges;
mod reading;
mod rules;
mod trace;
mod words;

pub use fault::TraceFault;
pub use laws::law_each_has_answer;
pub use plan_fault::PlanFault;
pub use planning::plan;
pub use reading::read_trace;
pub use trace::{CoreConsts, NamedConst, NamedConstList, Numbered, Trace, TraceLine};
