//! What the decider answers.

use linear_cert::Cert;
use linear_form::Point;

/// Whether a system has a solution.
#[derive(Drop)]
pub enum Answer {
    /// It has none: a certificate that is right for it.
    Holds(Cert),
    /// It has one: a point that solves it.
    Fails(Point),
    /// Neither was found. The number of points that the ranges have, none where it passes
    /// `2^128 - 1`.
    Undecided(Option<u128>),
}
