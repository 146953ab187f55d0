//! What a syntax declares.

ghost use Rattle.std.specs.Prelude.{◌≡◌, ◌<◌, ◌^◌, ◌++◌, ◌+◌, ◌-◌, [], ◌∷◌, IfOk, IfErr, length, true, unsigned_abs};
ghost use Rattle.policy_types.specs.Declarations.{attr_faults, attr_meaning, attrs_faults, int_meaning};
ghost use Rattle.policy_types.specs.Declarations.{is_attribute_range, load_faults, load_meaning, nothing_declared};
ghost use Rattle.policy_types.specs.Declarations.{scope_after};
ghost use Rattle.policy_types.specs.Faults.{IsFirst};

use crate::attributes::Attributes;
use crate::fault::TypeFault;
use crate::scope::Scope;
use lists::Items;
use policy_syntax::{AttrSyntax, IntSyntax, LoadSyntax};
use policy_tree::{Attr, Load, Name};
use sched_base::{MAX_ATTRIBUTE, MAX_WEIGHT};
use std::alloc::{AllocError, Global};

/// What adds to the load of a core.
pub(crate) fn load(load: &LoadSyntax) -> Result<Load, TypeFault>
    ensures load { IfOk result (λ l. l ≡ load_meaning load.now) }
    ensures sound { IfOk result (λ l. load_faults load.now ≡ []) }
    ensures fault { IfErr result (IsFirst (load_faults load.now)) }
{
    match load {
        LoadSyntax::Count { .. } => Ok(Load::Count),
        LoadSyntax::Weight { range, .. } => {
            let low = int(&range.low);
            let high = int(&range.high);
            if 1 <= low && low <= high && high <= i128::from(MAX_WEIGHT) {
                Ok(Load::Weight {
                    lo: range.low.value as u32,
                    hi: range.high.value as u32,
                })
            } else {
                Err(TypeFault::BadRange(range.at))
            }
        }
    }
}

/// The attributes, by their kinds.
pub(crate) fn attributes(alloc: Global, attrs: &[AttrSyntax]) -> Result<Scope<'_>, TypeFault>
    requires { length attrs.now < 2 ^ 32 }
    ensures scope { IfOk result (λ s. s ≡ scope_after nothing_declared attrs.now) }
    ensures sound { IfOk result (λ s. attrs_faults nothing_declared attrs.now ≡ []) }
    ensures fault { IfErr result (IsFirst (attrs_faults nothing_declared attrs.now)) }
{
    let mut cores = Attributes::new(alloc);
    let mut threads = Attributes::new(alloc);
    for attr in attrs {
        if attr.of_cores {
            cores = with_attribute(alloc, cores, attr)?;
        } else {
            threads = with_attribute(alloc, threads, attr)?;
        }
    }
    Ok(Scope { cores, threads })
}

/// The attributes of a kind, and one more behind them.
fn with_attribute<'a>(
    alloc: Global,
    declared: Attributes<'a>,
    attr: &'a AttrSyntax,
) -> Result<Attributes<'a>, TypeFault>
    requires { length declared + 1 < 2 ^ 32 }
    ensures more { IfOk result (λ more. more ≡ declared.entry ++ attr_meaning attr.now ∷ []) }
    ensures sound { IfOk result (λ more. attr_faults declared.entry attr.now ≡ []) }
    ensures fault { IfErr result (IsFirst (attr_faults declared.entry attr.now)) }
{
    if declared.number_of(attr.name.as_slice()).is_some() {
        return Err(TypeFault::Twice(attr.at.saturating_add(1)));
    }
    if !is_attribute_range(attr) {
        return Err(TypeFault::BadRange(attr.range.at));
    }
    Ok(declared.with(attr.name.as_slice(), attribute(alloc, attr)?)?)
}

/// The attribute that is declared, whose range is a right one.
fn attribute(alloc: Global, attr: &AttrSyntax) -> Result<Attr, AllocError>
    requires { is_attribute_range attr.now ≡ true }
    ensures { IfOk result (λ a. a ≡ attr_meaning attr.now) }
{
    Ok(Attr {
        name: copy_of_name(alloc, &attr.name)?,
        lo: int(&attr.range.low) as i32,
        hi: int(&attr.range.high) as i32,
        start: int(&attr.start) as i32,
    })
}

/// Whether the attribute begins in its range, and that isn't too wide.
fn is_attribute_range(attr: &AttrSyntax) -> bool
    ensures { result ≡ is_attribute_range attr.now }
{
    let low = int(&attr.range.low);
    let high = int(&attr.range.high);
    let start = int(&attr.start);
    let greatest = i128::from(MAX_ATTRIBUTE);
    -greatest <= low && low <= start && start <= high && high <= greatest
}

/// The number with its sign.
fn int(number: &IntSyntax) -> i128
    ensures value { result ≡ int_meaning number.now }
    ensures bound { unsigned_abs result < 2 ^ 64 }
{
    let value = i128::from(number.value);
    if number.negative { -value } else { value }
}

/// A copy of a name.
pub(crate) fn copy_of_name(alloc: Global, name: &Name) -> Result<Name, AllocError>
    ensures { IfOk result (λ copy. copy ≡ name.now) }
{
    Ok(Items::from_vec(Vec::from_slice(alloc, name.as_slice())?))
}
