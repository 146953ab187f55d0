//! Answers.

use linear_cert::Cert;
use linear_form::Point;

/// What was found out about a system.
#[derive(Drop)]
pub enum Decided {
    /// It has no solution, and the certificate is right.
    Holds(Cert),
    /// The point is a solution.
    Fails(Point),
}
