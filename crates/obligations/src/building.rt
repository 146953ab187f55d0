//! The conjunctive cases of a condition.

ghost use Rattle.std.specs.Prelude.{◌≡◌, ◌<◌, ◌≤◌, [], List, IfOk, All, MatchOption, false, true};
ghost use Rattle.policy_tree.specs.declared.typed.Load.{Load};
ghost use Rattle.policy_tree.specs.Chains.{is_link, nodes_of};
ghost use Rattle.policy_tree.specs.Trees.{cond_tree};
ghost use Rattle.policy_eval.specs.Forms.{EachSide, IsLinear};
ghost use Rattle.policy_eval.specs.Resolved.{IsWeightRange};
ghost use Rattle.linear_form.specs.declared.form.Row.{Row};
ghost use Rattle.obligations.specs.Cases.{cases_of};
ghost use Rattle.obligations.specs.ChainCases.{IsBelow, IsEnd, IsLinearLink, SplitsOff, along, end_cases, end_nodes};
ghost use Rattle.obligations.specs.ChainCases.{link_cases};

use crate::comparisons::{asked, cases_of_test};
use crate::counts::count;
use crate::crossing::{cases_of_always, crossed, joined};
use crate::rows::Rows;
use policy_tree::{Cond, Load};
use std::alloc::{AllocError, Global};

/// What a link of a chain does with the cases to its left.
#[derive(Clone, Copy)]
struct Link<'a> {
    /// Whether it crosses them with its own, and doesn't join the two.
    crosses: bool,
    right: &'a Cond,
}

/// The cases in which the condition has the outcome. It goes along a chain by a loop, and calls itself for what stands
/// to the right alone. Nothing is made that no case comes of.
#[cycle(building)]
pub fn cases_of(
    alloc: Global,
    load: Load,
    cond: &Cond,
    outcome: bool,
) -> Result<Vec<Rows>, AllocError>
    requires load { IsWeightRange load }
    requires linear { EachSide IsLinear (cond_tree cond.now) }
    ensures { IfOk result (λ cases. cases.items ≡ cases_of load outcome (cond_tree cond.now)) }
{
    let (end, mut links) = chain_of(alloc, cond, outcome)?;
    let mut cases = cases_of_end(alloc, load, end, outcome)?;
    while let Some(link) = links.pop() {
        cases = linked(alloc, load, cases, link, outcome)?;
    }
    Ok(cases)
}

/// The left end of the chain that the condition begins with, and its links, the outermost first. Where a link crosses
/// with no case, none comes of what stands to its left, and there is no end.
fn chain_of(
    alloc: Global,
    cond: &Cond,
    outcome: bool,
) -> Result<(Option<&Cond>, Vec<Link<'_>>), AllocError>
    requires linear { EachSide IsLinear (cond_tree cond.now) }
    ensures chain { (load : Load) → IfOk result (λ found.
        along load outcome found.1.items (end_cases load outcome found.0)
        ≡ cases_of load outcome (cond_tree cond.now)) }
    ensures end { IfOk result (λ found. IsEnd found.0) }
    ensures nodes { IfOk result (λ found. end_nodes found.0 ≤ nodes_of (cond_tree cond.now)) }
    ensures below { IfOk result (λ found. All (IsBelow (nodes_of (cond_tree cond.now))) found.1.items) }
    ensures linear { IfOk result (λ found. All IsLinearLink found.1.items) }
{
    let mut links = Vec::new(alloc);
    let mut end = cond;
    loop {
        match split(end, outcome) {
            None => return Ok((Some(end), links)),
            Some((left, link)) => {
                if is_barren(link, outcome) {
                    return Ok((None, links));
                }
                links.push(link)?;
                end = left;
            }
        }
    }
}

/// The condition to the left of a link, and the link; none where the condition is no link of a chain.
fn split(cond: &Cond, outcome: bool) -> Option<(&Cond, Link<'_>)>
    ensures { MatchOption result (is_link cond.now ≡ false) (λ s. SplitsOff outcome cond.now s.0.now s.1) }
{
    match cond {
        Cond::And(left, right) => {
            let crosses = outcome;
            Some((left, Link { crosses, right }))
        }
        Cond::Or(left, right) => {
            let crosses = !outcome;
            Some((left, Link { crosses, right }))
        }
        Cond::Always | Cond::Not(_) | Cond::Test(..) => None,
    }
}

/// Whether the link crosses with no case.
fn is_barren(link: Link<'_>, outcome: bool) -> bool
    ensures { result ≡ true → (load : Load) (left : List (List Row)) → link_cases load outcome link.entry left ≡ [] }
{
    link.crosses && count(link.right, outcome) == 0
}

/// The cases of what is no link of a chain.
#[cycle(building)]
fn cases_of_end(
    alloc: Global,
    load: Load,
    end: Option<&Cond>,
    outcome: bool,
) -> Result<Vec<Rows>, AllocError>
    requires load { IsWeightRange load }
    requires end { IsEnd end }
    ensures { IfOk result (λ cases. cases.items ≡ end_cases load outcome end.entry) }
{
    let Some(cond) = end else {
        return Ok(Vec::new(alloc));
    };
    match cond {
        Cond::Always => cases_of_always(alloc, outcome),
        Cond::Not(inner) => cases_of(alloc, load, inner, !outcome),
        Cond::Test(how, left, right) => {
            cases_of_test(alloc, load, asked(outcome, *how), left, right)
        }
        _ => unreachable!(),
    }
}

/// The cases to the left of a link with the link's own.
#[cycle(building)]
fn linked(
    alloc: Global,
    load: Load,
    left: Vec<Rows>,
    link: Link<'_>,
    outcome: bool,
) -> Result<Vec<Rows>, AllocError>
    requires load { IsWeightRange load }
    requires linear { IsLinearLink link }
    ensures { IfOk result (λ all. all.items ≡ link_cases load outcome link.entry left.items) }
{
    if link.crosses && left.is_empty() {
        return Ok(left);
    }
    let right = cases_of(alloc, load, link.right, outcome)?;
    if link.crosses {
        crossed(alloc, left, right)
    } else {
        joined(left, right)
    }
}
