//! Whether the lines of a trace fit a policy.

ghost use Rattle.std.specs.Prelude.{◌≡◌, find, option_map};
ghost use Rattle.job_trace.specs.Plans.{const_fault, consts_fault, first_fault, is_foreign, is_named, is_outside};
ghost use Rattle.job_trace.specs.Plans.{line_fault, weight_fault};

use crate::plan_fault::PlanFault;
use crate::trace::{NamedConst, Numbered, TraceLine};
use policy_tree::{Attr, Load};

/// The fault of the first line that doesn't fit a load and the attributes of cores.
pub(crate) fn first_fault(lines: &[Numbered], load: Load, attrs: &[Attr]) -> Option<PlanFault>
    ensures { result ≡ first_fault load attrs.now lines.now }
{
    for numbered in lines {
        let fault = line_fault(&numbered.line, numbered.number, load, attrs);
        if fault.is_some() {
            return fault;
        }
    }
    None
}

fn line_fault(line: &TraceLine, number: u32, load: Load, attrs: &[Attr]) -> Option<PlanFault>
    ensures { result ≡ line_fault load attrs.now number line.now }
{
    match line {
        TraceLine::Core(given) => consts_fault(given.consts.as_slice(), number, attrs),
        TraceLine::Thread(thread) => weight_fault(thread.weight, number, load),
        TraceLine::Cores(_) | TraceLine::Rounds(_) | TraceLine::Entries(_) | TraceLine::Order(_) =>
            None,
    }
}

fn weight_fault(weight: u32, number: u32, load: Load) -> Option<PlanFault>
    ensures { result ≡ weight_fault load number weight }
{
    if is_foreign(load, weight) {
        Some(PlanFault::WeightRange(number))
    } else {
        None
    }
}

fn is_foreign(load: Load, weight: u32) -> bool
    ensures { result ≡ is_foreign load weight }
{
    match load {
        Load::Count => false,
        Load::Weight { lo, hi } => weight < lo || hi < weight,
    }
}

/// The first fault of constants, from left to right.
fn consts_fault(consts: &[NamedConst], number: u32, attrs: &[Attr]) -> Option<PlanFault>
    ensures { result ≡ consts_fault attrs.now number consts.now }
{
    for given in consts {
        let fault = const_fault(given, number, attrs);
        if fault.is_some() {
            return fault;
        }
    }
    None
}

fn const_fault(given: &NamedConst, number: u32, attrs: &[Attr]) -> Option<PlanFault>
    ensures { result ≡ const_fault attrs.now number given.now }
{
    match attribute_named(attrs, given.name.as_slice()) {
        Some(attr) if is_outside(attr, given.value) => Some(PlanFault::ConstRange(number)),
        Some(_attr) => None,
        None => Some(PlanFault::ConstName(number)),
    }
}

/// Whether the declared range doesn't have the value.
fn is_outside(attr: &Attr, value: i32) -> bool
    ensures { result ≡ is_outside attr.now value }
{
    value < attr.lo || attr.hi < value
}

/// The first attribute of that name.
fn attribute_named<'a>(attrs: &'a [Attr], name: &[u8]) -> Option<&'a Attr>
    ensures { option_map (λ attr. attr.now) result ≡ find (is_named name.now) attrs.now }
{
    attrs.iter().find(|attr| is_named(attr, name))
}

/// Whether the attribute has that name.
pub(crate) fn is_named(attr: &Attr, name: &[u8]) -> bool
    ensures { result ≡ is_named name.now attr.now }
{
    attr.name.as_slice() == name
}
