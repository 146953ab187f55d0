//! Decides systems of differences: each row bounds a variable, or the difference of two.
//!
//! It finds the shortest distances between all pairs of values, as Floyd and Warshall do. A value that
//! lies below itself shows a sum of rows that says `0 <= c` with c negative. Where none does, the
//! distances to the zero are a solution.
#![tactic(auto)]

mod closing;
mod decided;
mod distance;
mod distances;
mod ranges;
mod rows;
mod solver;

pub use decided::Decided;
pub use linear_cert::SolveMemory;
pub use solver::decide_differences;
