//! Cores that take their turns at the shared table step by step, each by its own seat, and small plans for them.
//!
//! Tests and benches play by these, since one may step the cores in any order. The turns of `run` are in `core_calls`.
#![tactic(auto)]

pub mod crowds;
pub mod game;
pub mod games;
pub mod players;
