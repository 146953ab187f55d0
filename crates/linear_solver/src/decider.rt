//! The decider of linear systems.

ghost use Rattle.std.specs.Prelude.{◌≡◌, ◌+◌, ◌*◌, ◌≤◌, ◌^◌, ◌<◌, false, true, IfOk, IsSomeAnd, IsTrue, OnOk, ◌↔◌};
ghost use Rattle.linear_form.specs.Points.{points_of};
ghost use Rattle.sched_base.specs.declared.limits.TheConstants.{MAX_SPLITS};
ghost use Rattle.linear_solver.specs.Decides.{Decides, DecidesUnlessOpen, HoldsIfRefuted, HoldsShallowly};
ghost use Rattle.linear_solver.specs.Decides.{IsNumberOfPoints, IsUndecided};
ghost use Rattle.linear_solver.specs.Found.{IsDecided, IsFound};
ghost use Rattle.linear_solver.specs.Looks.{most_looks};
ghost use Rattle.linear_solver.specs.declared.decider.TheConstants.{MAX_TERMS};

use crate::answer::Answer;
use crate::elimination::eliminate;
use crate::local_search::local_point;
use crate::parts::Part;
use crate::searching::{Effort, Found, search};
use linear_cert::{Cert, SolveMemory};
use linear_form::System;
use sched_base::MAX_SPLITS;
use std::alloc::Global;

/// The terms that a search past the budget may look at. Of 1,500 hard systems made by chance it leaves
/// 90 open, against 115 with a quarter of it and 71 with four times as many.
pub const MAX_TERMS: u64 = 1 << 20;

/// The sums that the probes of a search may make. Three or thirty times as many decide as much and take longer.
pub const MAX_SUMS: u32 = 1_000;

// The budget under which nothing is tried.
const NO_BUDGET: u64 = 0;

/// Whether the system has a solution. Up to `budget` points it is decided whatever it costs. Past that it
/// may be left undecided, after a fixed effort, where elimination doesn't refute it. Under a budget of 0
/// nothing is tried.
///
/// The search cuts ranges in halves and tests each row over what is left. It eliminates variables over the
/// boxes that no row cuts, as Fourier and Motzkin do. Elimination of the whole system comes last. The number of boxes that
/// were looked at is added to `looks`, which stops at its greatest value.
pub fn decide(
    alloc: Global,
    system: &System,
    budget: u64,
    looks: &mut u64,
) -> Result<Answer, SolveMemory>
    ensures decides { IfOk result (Decides system.now.bounds system.now.rows) }
    ensures shallow { IfOk result HoldsShallowly }
    ensures open { IfOk result (DecidesUnlessOpen system.now.bounds system.now.rows budget) }
    ensures idle { budget ≡ 0 → IfOk result IsUndecided }
    ensures looks { OnOk result (looks.new ≤ looks.old + most_looks budget) }
{
    let points = system.points();
    if budget == NO_BUDGET {
        return Ok(Answer::Undecided(points));
    }
    let is_small = is_within(points, budget);
    match searched(alloc, system, !is_small, looks)? {
        Found::Refuted(cert) => Ok(Answer::Holds(cert)),
        Found::Solved(point) => Ok(Answer::Fails(point)),
        Found::Stopped => tried(alloc, system, points),
    }
}

// The answer by a point that a local search finds, or else by elimination.
fn tried(alloc: Global, system: &System, points: Option<u128>) -> Result<Answer, SolveMemory>
    requires { IsNumberOfPoints system.now.bounds points }
    ensures decides { IfOk result (Decides system.now.bounds system.now.rows) }
    ensures shallow { IfOk result HoldsShallowly }
    ensures open { IfOk result (HoldsIfRefuted system.now.bounds system.now.rows) }
{
    match local_point(alloc, system)? {
        Some(point) => Ok(Answer::Fails(point)),
        None => eliminated(alloc, system, points),
    }
}

// The answer by elimination alone.
fn eliminated(alloc: Global, system: &System, points: Option<u128>) -> Result<Answer, SolveMemory>
    requires { IsNumberOfPoints system.now.bounds points }
    ensures decides { IfOk result (Decides system.now.bounds system.now.rows) }
    ensures shallow { IfOk result HoldsShallowly }
    ensures open { IfOk result (HoldsIfRefuted system.now.bounds system.now.rows) }
{
    match eliminate(alloc, system.bounds(), system.rows())? {
        Some(leaf) => Ok(Answer::Holds(Cert::Leaf(leaf))),
        None => Ok(Answer::Undecided(points)),
    }
}

fn is_within(points: Option<u128>, budget: u64) -> bool
    ensures { IsTrue result ↔ IsSomeAnd points (λ count. count ≤ budget) }
{
    match points {
        Some(count) => count <= u128::from(budget),
        None => false,
    }
}

// What a search of the whole system finds. Where it isn't limited it finds one or the other.
fn searched(
    alloc: Global,
    system: &System,
    limited: bool,
    looks: &mut u64,
) -> Result<Found, SolveMemory>
    ensures found { IfOk result (IsFound MAX_SPLITS system.now.bounds system.now.rows) }
    ensures decides { limited ≡ false → points_of system.now.bounds < 2 ^ 64
        → IfOk result IsDecided }
    ensures few { OnOk result (looks.new ≤ looks.old + 2 * points_of system.now.bounds) }
    ensures limited { limited ≡ true → OnOk result (looks.new ≤ looks.old + MAX_TERMS) }
{
    let mut effort = Effort {
        limited,
        terms: MAX_TERMS,
        sums: MAX_SUMS,
        looks: 0,
    };
    let part = Part::Open(system.bounds().to_vec(alloc)?);
    let found = search(alloc, system.rows(), part, MAX_SPLITS, &mut effort)?;
    *looks = looks.saturating_add(effort.looks);
    Ok(found)
}
