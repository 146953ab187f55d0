//! The answer of `rest`: how far the loads of cores may differ of which none can steal from another.

ghost use Rattle.std.specs.Prelude.{◌≡◌, ◌≤◌, ◌++◌, ◌∷◌, [], IfOk, None, OnOk, codes, decimal, length};
ghost use Rattle.sched_base.specs.declared.limits.TheConstants.{CHECK_BUDGET, MAX_POLICY_BYTES};
ghost use Rattle.sched_io.specs.Puts.{Puts};
ghost use Rattle.policy_tree.specs.Meaning.{meaning_of};
ghost use Rattle.policy_eval.specs.Resolved.{IsResolved, IsWeightRange};
ghost use Rattle.obligations.specs.Counts.{first_crowded};
ghost use Rattle.obligations.specs.Names.{ob_names};
ghost use Rattle.policy_checker.specs.RestGaps.{IsLeastGap};
ghost use Rattle.policy_answers.specs.Points.{values_text};
ghost use Rattle.policy_answers.specs.Rests.{IsRestOf, IsToldOfGap, gap_line, gap_word, rest_lines, rounds_line, widest_gap};

use crate::answer::{CheckAnswer, check_text};
use crate::points::add_values;
use crate::reading::CheckMemory;
use itoa::Buffer;
use obligations::greatest_load;
use policy_checker::{LeastGap, Verdict, WiderGap, least_gap};
use policy_tree::{Load, Policy};
use rest_bounds::raises_lowest;
use sched_base::CHECK_BUDGET;
use sched_io::{PutFault, Sink, put_all};
use std::alloc::{AllocError, Global};

/// What is told of cores at rest.
#[derive(Drop)]
pub struct Resting {
    /// What is found of the gap between their loads.
    pub gap: LeastGap,
    /// The line that says so. Where the gap is known, with two cores that have it.
    pub line: Vec<u8>,
    /// Whether the policy is found to raise the lowest: what `rest_bounds` tells.
    pub lowest_first: bool,
}

/// What `rest` answers to a text that isn't too long.
#[derive(Drop)]
pub enum RestAnswer {
    /// The policy is accepted, and this is told of cores at rest.
    Rests(Resting),
    /// The policy isn't accepted. This is what `check` answers.
    Unaccepted(CheckAnswer),
}

/// The answer to a text within its limit.
pub fn rest_text(alloc: Global, text: &[u8]) -> Result<RestAnswer, CheckMemory>
    requires { length text.now ≤ MAX_POLICY_BYTES }
    ensures { IfOk result (IsRestOf text.now) }
{
    match check_text(alloc, text)? {
        CheckAnswer::Judged(Verdict::Accepted(accepted)) => {
            Ok(RestAnswer::Rests(resting_of(alloc, accepted.policy())?))
        }
        CheckAnswer::Judged(verdict) => Ok(RestAnswer::Unaccepted(CheckAnswer::Judged(verdict))),
        CheckAnswer::Unjudged(why) => Ok(RestAnswer::Unaccepted(CheckAnswer::Unjudged(why))),
    }
}

/// What is told of a policy of which no obligation has too many cases.
fn resting_of(alloc: Global, policy: &Policy) -> Result<Resting, AllocError>
    requires resolved { IsResolved (meaning_of policy.now) }
    requires few { first_crowded (meaning_of policy.now) ob_names ≡ None }
    ensures { IfOk result (IsToldOfGap (meaning_of policy.now)) }
{
    let gap = least_gap(alloc, policy, CHECK_BUDGET)?;
    let line = gap_line(alloc, policy, &gap)?;
    let lowest_first = raises_lowest(policy);
    Ok(Resting {
        gap,
        line,
        lowest_first,
    })
}

/// The line on the gap.
fn gap_line(alloc: Global, policy: &Policy, found: &LeastGap) -> Result<Vec<u8>, AllocError>
    requires resolved { IsResolved (meaning_of policy.now) }
    requires found { IsLeastGap (meaning_of policy.now) CHECK_BUDGET found.now }
    ensures { IfOk result (λ line. line.items ≡ gap_line (meaning_of policy.now) found.now) }
{
    match found {
        LeastGap::Even => b"rest gap 0\n".as_slice().to_vec(alloc),
        LeastGap::Least(gap, wider) => least_line(alloc, policy, *gap, wider),
        LeastGap::Undecided(at, proved) => undecided_line(alloc, policy.load, *at, *proved),
    }
}

/// The line of a gap that is known, with two cores that have it.
fn least_line(
    alloc: Global,
    policy: &Policy,
    gap: u32,
    wider: &WiderGap,
) -> Result<Vec<u8>, AllocError>
    requires load { IsWeightRange policy.now.load }
    requires values { length wider.now.point.vals ≡ length wider.now.vars }
    ensures { IfOk result (λ line. line.items ≡ codes "rest gap " ++ (gap_word policy.now.load gap
        ++ (values_text (meaning_of policy.now) wider.now.vars wider.now.point.vals ++ codes "\n"))) }
{
    let mut line = Vec::from_slice(alloc, b"rest gap ")?;
    add_gap(&mut line, policy.load, gap)?;
    add_values(
        &mut line,
        policy,
        wider.vars.as_slice(),
        wider.point.vals.as_slice(),
    )?;
    line.extend_from_slice(b"\n")?;
    Ok(line)
}

/// The line of one of which it isn't known whether it is left, with the least that is proved.
fn undecided_line(alloc: Global, load: Load, at: u32, proved: u32) -> Result<Vec<u8>, AllocError>
    requires { IsWeightRange load }
    ensures { IfOk result (λ line. line.items ≡ codes "rest gap undecided " ++ (decimal at
        ++ (codes " proved " ++ (gap_word load proved ++ codes "\n")))) }
{
    let mut line = Vec::from_slice(alloc, b"rest gap undecided ")?;
    let mut digits = Buffer::new();
    line.extend_from_slice(digits.format(at).as_bytes())?;
    line.extend_from_slice(b" proved ")?;
    add_gap(&mut line, load, proved)?;
    line.extend_from_slice(b"\n")?;
    Ok(line)
}

/// Adds a gap, or that there is none.
fn add_gap(line: &mut Vec<u8>, load: Load, gap: u32) -> Result<(), AllocError>
    requires { IsWeightRange load }
    ensures { OnOk result (line.new.items ≡ line.old.items ++ gap_word load gap) }
{
    if gap < widest_gap(load) {
        let mut digits = Buffer::new();
        line.extend_from_slice(digits.format(gap).as_bytes())
    } else {
        line.extend_from_slice(b"none")
    }
}

/// The widest gap that the loads of two cores with a thread may have.
fn widest_gap(load: Load) -> u32
    requires { IsWeightRange load }
    ensures { result ≡ widest_gap load }
{
    let least = match load {
        Load::Count => 1,
        Load::Weight { lo, .. } => lo,
    };
    greatest_load(load) - least
}

impl RestAnswer {
    /// Writes the answer, a line at a time.
    pub fn put<S: Sink>(&self, out: &mut S) -> Result<(), PutFault>
        ensures { Puts (rest_lines self.now) result (S.shown out.old) (S.shown out.new) }
    {
        match self {
            RestAnswer::Rests(resting) => put_resting(out, resting),
            RestAnswer::Unaccepted(checked) => checked.put(out),
        }
    }
}

/// Writes the line on the gap, and the one on the rounds.
fn put_resting<S: Sink>(out: &mut S, resting: &Resting) -> Result<(), PutFault>
    ensures { Puts (resting.now.line.items ∷ rounds_line resting.now.lowest_first ∷ []) result
        (S.shown out.old) (S.shown out.new) }
{
    put_all(out, resting.line.as_slice())?;
    put_all(out, rounds_line(resting.lowest_first))?;
    Ok(())
}

/// The line on the rounds.
fn rounds_line(lowest_first: bool) -> &'static [u8]
    ensures { result.now ≡ rounds_line lowest_first }
{
    if lowest_first {
        b"rest bound lowest-first\n"
    } else {
        b"rest bound half-spread\n"
    }
}
