//! What the rows say of a box, and how to cut it where they leave it open.

ghost use Rattle.std.specs.Prelude.{◌≡◌, ◌≢◌, ◌<◌, ◌≤◌, ◌⊎◌, pos, length, All, MatchOption};
ghost use Rattle.linear_form.specs.System.{IsBound, IsRow, IsSystem, IsTerm};
ghost use Rattle.linear_solver.specs.Boxes.{AreFixed, HoldsPartly, IsWide, spread};
ghost use Rattle.linear_solver.specs.Steps.{IsLook, IsReach};

use crate::ends::{Ends, ends_of};
use linear_form::{Bound, Row, Term};
use sched_base::MAX_VARIABLES;

/// What the rows say of a box.
#[derive(Clone, Copy)]
pub enum Look {
    /// The row with this number holds nowhere in it.
    Refuted(u32),
    /// Every row holds at each of its points.
    Implied,
    /// Neither is so.
    Open(Choice),
}

/// How an open box may be cut.
#[derive(Clone, Copy)]
pub struct Choice {
    /// The number of the tightest open row.
    pub row: u32,
    /// A cut that a row may close on one side.
    pub cut: Option<Cut>,
}

/// A cut of which one side is closed by a row.
#[derive(Clone, Copy)]
pub struct Cut {
    /// The variable.
    pub variable: u32,
    /// The last value of the lower part.
    pub at: i64,
    /// The row that holds nowhere in one of the parts.
    pub row: u32,
    /// Whether that part is the lower one.
    pub closes_low: bool,
    /// How many times the other part is in the whole.
    pub gain: u64,
}

/// An open row, and how near it is to holding nowhere.
#[derive(Clone, Copy)]
pub struct Tight {
    /// The number of the row.
    pub row: u32,
    /// What is left of its bound over what it changes by, times `RATIO_SCALE`.
    pub ratio: u128,
}

// The scale of ratios.
const RATIO_SCALE: u128 = 1 << 20;

// The most values that a cut keeps: past that no range reaches.
const MAX_KEPT: u128 = 1 << 62;

/// Where in a box a row holds.
#[derive(Clone, Copy)]
pub enum Reach {
    /// Nowhere.
    Nowhere,
    /// At every point.
    Everywhere,
    /// Maybe at some points, and not at every one.
    Partly {
        /// What is left of the bound where the left side is least.
        slack: u128,
        /// By how much the left side changes.
        change: u128,
    },
}

/// Tests each row against the box.
pub fn look_over(bounds: &[Bound], rows: &[Row]) -> Look
    requires { IsSystem (record { bounds = bounds.now; rows = rows.now }) }
    ensures { IsLook bounds.now rows.now result }
{
    let mut tight: Option<Tight> = None;
    let mut cut: Option<Cut> = None;
    for (number, row) in rows.iter().enumerate() {
        match reach_of(bounds, row) {
            Reach::Nowhere => return Look::Refuted(number as u32),
            Reach::Everywhere => {}
            Reach::Partly { slack, change } => {
                tight = Some(tighter(tight, number as u32, slack, change));
                cut = better_cut(cut, bounds, number as u32, row.terms.as_slice(), slack);
            }
        }
    }
    match tight {
        None => Look::Implied,
        Some(tight) => Look::Open(Choice {
            row: tight.row,
            cut,
        }),
    }
}

fn reach_of(bounds: &[Bound], row: &Row) -> Reach
    requires few { length bounds.now ≤ MAX_VARIABLES }
    requires bounds { All IsBound bounds.now }
    requires row { IsRow (length bounds.now) row.now }
    ensures { IsReach bounds.now row.now result }
{
    let bound = i128::from(row.bound);
    let Ends { low, high } = ends_of(bounds, row.terms.as_slice());
    if bound < low {
        Reach::Nowhere
    } else if high <= bound {
        Reach::Everywhere
    } else {
        Reach::Partly {
            slack: (bound - low) as u128,
            change: (high - low) as u128,
        }
    }
}

// The tighter of the row so far and one more. Of equals the first stays.
fn tighter(tight: Option<Tight>, row: u32, slack: u128, change: u128) -> Tight
    requires { 0 < change }
    ensures { MatchOption tight (result.row ≡ row)
        (λ other. (result ≡ other) ⊎ (result.row ≡ row)) }
{
    let ratio = slack.saturating_mul(RATIO_SCALE) / change;
    match tight {
        Some(other) if other.ratio <= ratio => other,
        _ => Tight { row, ratio },
    }
}

/// The variable of an open row whose term changes most over the box.
pub fn widest_in(bounds: &[Bound], row: &Row) -> u32
    requires bounds { All IsBound bounds.now }
    requires row { IsRow (length bounds.now) row.now }
    requires open { HoldsPartly bounds.now row.now }
    ensures { IsWide bounds.now result }
{
    match widest(bounds, row.terms.as_slice()) {
        Some(wide) => wide,
        None => unreachable!(),
    }
}

fn widest(bounds: &[Bound], terms: &[Term]) -> Option<u32>
    requires bounds { All IsBound bounds.now }
    requires terms { All (IsTerm (length bounds.now)) terms.now }
    ensures { MatchOption result (AreFixed bounds.now terms.now) (IsWide bounds.now) }
{
    let mut widest = None;
    let mut most = 0;
    for term in terms {
        let change = spread(bounds, *term);
        if most < change {
            most = change;
            widest = Some(term.var);
        }
    }
    widest
}

fn spread(bounds: &[Bound], term: Term) -> u128
    requires bounds { All IsBound bounds.now }
    requires term { IsTerm (length bounds.now) term }
    ensures { result ≡ spread bounds.now term }
{
    let range = bounds[term.var as usize];
    u128::from(term.coef.unsigned_abs()) * u128::from(range.hi.abs_diff(range.lo))
}

// The cut that leaves the least part of its range: the one so far, or one that this row closes. Each gains more than 1.
fn better_cut(
    cut: Option<Cut>,
    bounds: &[Bound],
    row: u32,
    terms: &[Term],
    slack: u128,
) -> Option<Cut>
    requires bounds { All IsBound bounds.now }
    requires terms { All (IsTerm (length bounds.now)) terms.now }
{
    let mut best = cut;
    let mut gain = cut.map_or(1, |cut| cut.gain);
    for term in terms {
        let range = bounds[term.var as usize];
        if gain <= range.hi.abs_diff(range.lo) && closes_half(bounds, *term, slack) {
            let next = cut_of(*term, range, row, slack);
            if gain < next.gain {
                gain = next.gain;
                best = Some(next);
            }
        }
    }
    best
}

// Whether a row that has `slack` left holds nowhere in at least half of the term's range. The test is quick:
// most terms don't pass it, and what passes it is divided.
fn closes_half(bounds: &[Bound], term: Term, slack: u128) -> bool
    requires bounds { All IsBound bounds.now }
    requires term { IsTerm (length bounds.now) term }
{
    let range = bounds[term.var as usize];
    let width = range.hi.abs_diff(range.lo);
    slack < u128::from(term.coef.unsigned_abs()) * u128::from(width - width / 2)
}

// The cut past which the row holds nowhere. A row that has `slack` left lets its term grow by that much over
// the range's end, and no more.
fn cut_of(term: Term, range: Bound, row: u32, slack: u128) -> Cut
    requires { term.coef ≢ pos 0 }
{
    let size = u128::from(term.coef.unsigned_abs());
    let len = u128::from(range.hi.abs_diff(range.lo)) + 1;
    let kept = (slack / size).min(MAX_KEPT);
    let gain = (len / (kept + 1)).min(MAX_KEPT) as u64;
    let closes_low = term.coef < 0;
    let at = if closes_low {
        range.hi.saturating_sub(kept as i64 + 1)
    } else {
        range.lo.saturating_add(kept as i64)
    };
    Cut {
        variable: term.var,
        at,
        row,
        closes_low,
        gain,
    }
}
