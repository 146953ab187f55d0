//! Reads the obligations of a file, and compares each with the policy's own.

ghost use Rattle.std.specs.Prelude.{◌≡◌, ◌↔◌, ◌+◌, ◌<◌, ◌≤◌, ◌^◌, List, [], ◌∷◌, ◌++◌, IfErr, IfOk};
ghost use Rattle.std.specs.Prelude.{IsTrue, length, map};
ghost use Rattle.linear_cert.specs.Right.{CertTree, IsShallow, cert_tree};
ghost use Rattle.policy_tree.specs.Meaning.{Meaning};
ghost use Rattle.obligations.specs.declared.names.ObName.{ObName};
ghost use Rattle.obligations.specs.Systems.{obligation_of};
ghost use Rattle.cert_file.specs.BadLines.{nothing, parts};
ghost use Rattle.cert_file.specs.Reading.{AreNextSystems, FailsFrom, HasRightAt, IsFoundIn, IsFoundSoFar};
ghost use Rattle.cert_file.specs.Reading.{IsNextObligation, IsTallyOf, first_of};

use crate::lines::{Rest, next_count};
use crate::reading::next_system;
use cert_lines::CertFault;
use linear_cert::{Cert, check};
use linear_form::System;
use obligations::{ObName, Obligation};
use std::alloc::Global;

/// What was read of obligations.
#[derive(Clone, Copy)]
pub(crate) struct Tally {
    /// How many certificates the file has of them.
    pub(crate) systems: u32,
    /// The first that is wrong, and the place of its system.
    pub(crate) wrong: Option<(ObName, u32)>,
}

/// What was read of one obligation.
#[derive(Clone, Copy)]
struct Found {
    systems: u32,
    wrong: Option<u32>,
}

/// Reads these obligations up to the end of the text. It calls itself for those behind the first.
pub(crate) fn next_obligations(
    alloc: Global,
    rest: &mut Rest<'_>,
    obligations: &[Obligation],
) -> Result<Tally, CertFault>
    requires { rest.old.number + length rest.old.bytes.now < u32.MAX }
    ensures tally { (p : Meaning) (names : List ObName) → obligations.now ≡ map (obligation_of p) names →
        IfOk result (IsTallyOf p names rest.old.bytes.now) }
    ensures few { IfOk result (λ tally. tally.systems ≤ length rest.old.bytes.now) }
    ensures fault { (p : Meaning) (names : List ObName) → obligations.now ≡ map (obligation_of p) names →
        IfErr result (FailsFrom (parts [] 0 0 names) rest.old.number rest.old.bytes.now) }
{
    let (obligation, more) = match obligations.split_first() {
        Some(parts) => parts,
        None => return ended(rest),
    };
    let found = next_obligation(alloc, rest, obligation)?;
    let later = next_obligations(alloc, rest, more)?;
    Ok(joined(obligation.name, found, later))
}

/// What is read of no obligation: nothing may be left of the text.
fn ended(rest: &Rest<'_>) -> Result<Tally, CertFault>
    ensures tally { (p : Meaning) → IfOk result (IsTallyOf p [] rest.now.bytes.now) }
    ensures few { IfOk result (λ tally. tally.systems ≤ length rest.now.bytes.now) }
    ensures fault { IfErr result (FailsFrom nothing rest.now.number rest.now.bytes.now) }
{
    if rest.bytes.is_empty() {
        Ok(Tally {
            systems: 0,
            wrong: None,
        })
    } else {
        Err(CertFault::BadText(rest.number))
    }
}

/// What was read of an obligation and of those behind it.
fn joined(name: ObName, found: Found, later: Tally) -> Tally
    requires { found.systems + later.systems < 2 ^ 32 }
    ensures systems { result.systems ≡ found.systems + later.systems }
    ensures wrong { result.wrong ≡ first_of name found.wrong later.wrong }
{
    let wrong = match found.wrong {
        Some(place) => Some((name, place)),
        None => later.wrong,
    };
    Tally {
        systems: found.systems + later.systems,
        wrong,
    }
}

/// Reads the obligation.
fn next_obligation(
    alloc: Global,
    rest: &mut Rest<'_>,
    obligation: &Obligation,
) -> Result<Found, CertFault>
    requires { rest.old.number + length rest.old.bytes.now < u32.MAX }
    ensures found { IfOk result (λ found. IsNextObligation obligation.now found.systems found.wrong
        rest.old.number rest.old.bytes.now rest.new.number rest.new.bytes.now) }
    ensures fault { (names : List ObName) → IfErr result
        (FailsFrom (parts [] 0 0 (obligation.now.name ∷ names)) rest.old.number rest.old.bytes.now) }
{
    let systems = next_count(rest, obligation.name)?;
    let wrong = next_systems(alloc, rest, obligation.systems.as_slice(), systems)?;
    Ok(Found { systems, wrong })
}

/// Reads so many systems. The first place is found at which they aren't as these have to be.
fn next_systems(
    alloc: Global,
    rest: &mut Rest<'_>,
    systems: &[System],
    count: u32,
) -> Result<Option<u32>, CertFault>
    requires { rest.old.number + length rest.old.bytes.now < u32.MAX }
    ensures found { IfOk result (λ wrong. AreNextSystems (λ trees. IsFoundIn systems.now trees wrong) count
        rest.old.number rest.old.bytes.now rest.new.number rest.new.bytes.now) }
    ensures fault { (names : List ObName) →
        IfErr result (FailsFrom (parts [] 0 count names) rest.old.number rest.old.bytes.now) }
{
    let mut wrong = None;
    for place in 0..count {
        let cert = next_system(alloc, rest)?;
        wrong = with_certificate(systems, wrong, place, &cert);
    }
    Ok(with_end(systems, wrong, count))
}

/// The first wrong place, where that of the certificates so far is known and one more stands at this place.
fn with_certificate(systems: &[System], wrong: Option<u32>, place: u32, cert: &Cert) -> Option<u32>
    ensures { (trees : List CertTree) → length trees ≡ place → IsShallow (cert_tree cert.now) →
        IsFoundSoFar systems.now trees wrong →
        IsFoundSoFar systems.now (trees ++ cert_tree cert.now ∷ []) result }
{
    match wrong {
        Some(first) => Some(first),
        None => {
            if is_right_at(systems, place, cert) {
                None
            } else {
                Some(place)
            }
        }
    }
}

/// Whether a system has that place, and the certificate is right for it.
fn is_right_at(systems: &[System], place: u32, cert: &Cert) -> bool
    ensures { IsTrue result ↔ HasRightAt systems.now place (cert_tree cert.now) }
{
    match systems.get(place as usize) {
        Some(system) => check(system, cert),
        None => false,
    }
}

/// The first wrong place, where that of all certificates is known, and there are so many.
fn with_end(systems: &[System], wrong: Option<u32>, count: u32) -> Option<u32>
    ensures { (trees : List CertTree) → length trees ≡ count → IsFoundSoFar systems.now trees wrong →
        IsFoundIn systems.now trees result }
{
    match wrong {
        Some(first) => Some(first),
        None => {
            if (count as usize) < systems.len() {
                Some(count)
            } else {
                None
            }
        }
    }
}
