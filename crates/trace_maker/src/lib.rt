//! Made traces: workloads of any size that a seed determines.
#![tactic(auto)]

mod fault;
mod generator;
mod making;

pub use fault::MakeFault;
pub use making::make_trace;
