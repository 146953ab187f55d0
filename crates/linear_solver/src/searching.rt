//! The search for a solution or a certificate, over boxes that are cut ever smaller.

ghost use Rattle.std.specs.Prelude.{◌≡◌, ◌+◌, ◌*◌, ◌<◌, ◌≤◌, List, false, IfOk, IsTrue, OnOk};
ghost use Rattle.linear_form.specs.declared.form.Bound.{Bound};
ghost use Rattle.linear_form.specs.Points.{points_of};
ghost use Rattle.linear_form.specs.System.{IsSystem};
ghost use Rattle.linear_cert.specs.Right.{cert_tree, split};
ghost use Rattle.linear_solver.specs.Boxes.{height};
ghost use Rattle.linear_solver.specs.Found.{GoesOn, IsDecided, IsFound, IsStep, height_of};
ghost use Rattle.linear_solver.specs.Insides.{IsProbe};
ghost use Rattle.linear_solver.specs.Looks.{IsSpent};
ghost use Rattle.linear_solver.specs.Steps.{IsOpenRow, IsPart, IsSystemPart};

use crate::choice::{Choice, Look, look_over, widest_in};
use crate::ends::low_ends;
use crate::leaf::row_leaf;
use crate::parts::{Part, Partition, cut_off, halved};
use crate::probing::{Probe, probe_box};
use linear_cert::{Cert, SolveMemory};
use linear_form::{Bound, Point, Row};
use sched_base::MAX_SPLITS;
use std::alloc::{AllocError, Global};

/// The values that the walk back may try at the whole system, and at a part of it. 20 to 200 at the parts found the
/// same points of some thousand systems.
const MAX_FIRST_PICKS: u32 = 2_000;

const MAX_PICKS: u32 = 64;

/// What a search found.
#[derive(Drop)]
pub enum Found {
    /// A certificate that no solution lies in the box.
    Refuted(Cert),
    /// A solution.
    Solved(Point),
    /// Nothing, with the effort that was allowed.
    Stopped,
}

/// How much a search may do.
#[derive(Clone, Copy)]
pub struct Effort {
    /// Whether it may stop with nothing found.
    pub limited: bool,
    /// The number of terms that it may look at, if so.
    pub terms: u64,
    /// The number of sums that its probes may make.
    pub sums: u32,
    /// The number of boxes that were looked at, which stops at its greatest value.
    pub looks: u64,
}

/// What one look at a box gives.
#[derive(Drop)]
pub enum Step {
    /// The answer.
    Done(Found),
    /// The box cut in two.
    Cut(Partition),
}

/// Looks for a solution in a part of a box, or for a certificate that there is none. At most `room`
/// splits stand one within another. Fewer boxes are looked at than twice the points of the part; and where the search is
/// limited, no more than terms are taken.
pub fn search(
    alloc: Global,
    rows: &[Row],
    part: Part,
    room: u32,
    effort: &mut Effort,
) -> Result<Found, SolveMemory>
    requires { IsSystemPart rows.now part }
    ensures found { (whole ranges : List Bound) → IsPart whole rows.now ranges part
        → IfOk result (IsFound room ranges rows.now) }
    ensures decides { effort.old.limited ≡ false → height_of part ≤ room → IfOk result IsDecided }
    ensures limited { effort.new.limited ≡ effort.old.limited }
    ensures looks { (whole ranges : List Bound) → IsPart whole rows.now ranges part
        → OnOk result (effort.new.looks < effort.old.looks + 2 * points_of ranges) }
    ensures spent { OnOk result (IsSpent effort.old effort.new) }
{
    let bounds = match part {
        Part::Closed(leaf) => return Ok(Found::Refuted(Cert::Leaf(leaf))),
        Part::Open(bounds) => bounds,
    };
    let Partition {
        variable,
        at,
        low,
        high,
    } = match look_at(alloc, bounds.as_slice(), rows, room, effort)? {
        Step::Done(found) => return Ok(found),
        Step::Cut(partition) => partition,
    };
    let low = match search(alloc, rows, low, room - 1, effort)? {
        Found::Refuted(cert) => cert,
        Found::Solved(point) => return Ok(Found::Solved(point)),
        Found::Stopped => return Ok(Found::Stopped),
    };
    let high = match search(alloc, rows, high, room - 1, effort)? {
        Found::Refuted(cert) => cert,
        Found::Solved(point) => return Ok(Found::Solved(point)),
        Found::Stopped => return Ok(Found::Stopped),
    };
    Ok(Found::Refuted(joined(alloc, variable, at, low, high)?))
}

fn joined(alloc: Global, variable: u32, at: i64, low: Cert, high: Cert) -> Result<Cert, SolveMemory>
    ensures { IfOk result (λ cert.
        cert_tree cert ≡ split variable at (cert_tree low) (cert_tree high)) }
{
    Ok(Cert::Split {
        var: variable,
        at,
        left: Box::new(alloc, low)?,
        right: Box::new(alloc, high)?,
    })
}

fn look_at(
    alloc: Global,
    bounds: &[Bound],
    rows: &[Row],
    room: u32,
    effort: &mut Effort,
) -> Result<Step, SolveMemory>
    requires { IsSystem (record { bounds = bounds.now; rows = rows.now }) }
    ensures step { IfOk result (IsStep room bounds.now rows.now) }
    ensures decides { effort.old.limited ≡ false → height bounds.now ≤ room → IfOk result GoesOn }
    ensures limited { effort.new.limited ≡ effort.old.limited }
    ensures looks { OnOk result (effort.new.looks ≤ effort.old.looks + 1) }
    ensures spent { OnOk result (IsSpent effort.old effort.new) }
{
    if !spends(effort, bounds, rows) {
        return Ok(Step::Done(Found::Stopped));
    }
    match look_over(bounds, rows) {
        Look::Refuted(row) => Ok(Step::Done(Found::Refuted(Cert::Leaf(row_leaf(
            alloc, rows, row,
        )?)))),
        Look::Implied => Ok(Step::Done(Found::Solved(Point {
            vals: low_ends(alloc, bounds)?,
        }))),
        Look::Open(choice) => Ok(open_step(alloc, bounds, rows, room, effort, choice)?),
    }
}

// A probe of an open box, where it is the whole or no row cuts it, and else a cut.
fn open_step(
    alloc: Global,
    bounds: &[Bound],
    rows: &[Row],
    room: u32,
    effort: &mut Effort,
    choice: Choice,
) -> Result<Step, SolveMemory>
    requires system { IsSystem (record { bounds = bounds.now; rows = rows.now }) }
    requires open { IsOpenRow bounds.now rows.now choice.row }
    ensures step { IfOk result (IsStep room bounds.now rows.now) }
    ensures decides { height bounds.now ≤ room → IfOk result GoesOn }
    ensures limited { effort.new.limited ≡ effort.old.limited }
    ensures looks { effort.new.looks ≡ effort.old.looks }
    ensures terms { effort.new.terms ≡ effort.old.terms }
{
    match probed(alloc, bounds, rows, room, effort, choice.cut.is_some())? {
        Probe::Leaf(leaf) => Ok(Step::Done(Found::Refuted(Cert::Leaf(leaf)))),
        Probe::Point(point) => Ok(Step::Done(Found::Solved(point))),
        Probe::Nothing => Ok(cut_in_two(alloc, bounds, rows, room, choice)?),
    }
}

fn probed(
    alloc: Global,
    bounds: &[Bound],
    rows: &[Row],
    room: u32,
    effort: &mut Effort,
    can_be_cut: bool,
) -> Result<Probe, SolveMemory>
    requires { IsSystem (record { bounds = bounds.now; rows = rows.now }) }
    ensures probe { IfOk result (IsProbe bounds.now rows.now) }
    ensures limited { effort.new.limited ≡ effort.old.limited }
    ensures looks { effort.new.looks ≡ effort.old.looks }
    ensures terms { effort.new.terms ≡ effort.old.terms }
{
    let is_whole = room == MAX_SPLITS;
    if effort.sums == 0 || (can_be_cut && !is_whole) {
        return Ok(Probe::Nothing);
    }
    let picks = if is_whole { MAX_FIRST_PICKS } else { MAX_PICKS };
    let mut sums = effort.sums;
    let found = probe_box(alloc, bounds, rows, &mut sums, picks);
    effort.sums = sums;
    found
}

fn cut_in_two(
    alloc: Global,
    bounds: &[Bound],
    rows: &[Row],
    room: u32,
    choice: Choice,
) -> Result<Step, AllocError>
    requires system { IsSystem (record { bounds = bounds.now; rows = rows.now }) }
    requires open { IsOpenRow bounds.now rows.now choice.row }
    ensures step { IfOk result (IsStep room bounds.now rows.now) }
    ensures decides { height bounds.now ≤ room → IfOk result GoesOn }
{
    if room > 0 {
        if let Some(cut) = choice.cut {
            if let Some(partition) = cut_off(alloc, bounds, rows, cut)? {
                return Ok(Step::Cut(partition));
            }
        }
    }
    cut_in_halves(alloc, bounds, rows, room, choice.row)
}

// The range halved that changes an open row most.
fn cut_in_halves(
    alloc: Global,
    bounds: &[Bound],
    rows: &[Row],
    room: u32,
    row: u32,
) -> Result<Step, AllocError>
    requires system { IsSystem (record { bounds = bounds.now; rows = rows.now }) }
    requires open { IsOpenRow bounds.now rows.now row }
    ensures step { IfOk result (IsStep room bounds.now rows.now) }
    ensures decides { height bounds.now ≤ room → IfOk result GoesOn }
{
    let wide = widest_in(bounds, &rows[row as usize]);
    if room == 0 {
        return Ok(Step::Done(Found::Stopped));
    }
    Ok(Step::Cut(halved(alloc, bounds, wide)?))
}

// Whether the effort reaches for one more look. What that takes is taken from it.
fn spends(effort: &mut Effort, bounds: &[Bound], rows: &[Row]) -> bool
    ensures decides { effort.old.limited ≡ false → IsTrue result }
    ensures limited { effort.new.limited ≡ effort.old.limited }
    ensures looks { effort.new.looks ≤ effort.old.looks + 1 }
    ensures spent { IsSpent effort.old effort.new }
{
    if effort.limited {
        let terms = cost_of(bounds, rows).max(1);
        if effort.terms < terms {
            return false;
        }
        effort.terms -= terms;
    }
    effort.looks = effort.looks.saturating_add(1);
    true
}

// How many terms a look at a box looks at. One that has none counts as one.
fn cost_of(bounds: &[Bound], rows: &[Row]) -> u64 {
    let mut cost = bounds.len() as u64;
    for row in rows {
        cost = cost.saturating_add(u64::from(row.terms.len()));
    }
    cost
}
