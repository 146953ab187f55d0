//! The constants of the cores of a plan.

ghost use Rattle.std.specs.Prelude.{◌≡◌, ◌<◌, IfOk, pos, position, slice_index_or};
ghost use Rattle.job_trace.specs.Plans.{const_put, consts_of, consts_put, core_consts, is_named, line_put, starts};

use crate::fitting::is_named;
use crate::trace::{NamedConst, Numbered, TraceLine};
use policy_tree::Attr;
use round_model::ConstList;
use sched_base::{CoreId, MAX_ATTRIBUTES};
use std::alloc::{AllocError, Global};

/// The constants of so many cores.
pub(crate) fn consts_of(
    alloc: Global,
    lines: &[Numbered],
    attrs: &[Attr],
    cores: u32,
) -> Result<ConstList, AllocError>
    ensures { IfOk result (λ consts. consts ≡ consts_of attrs.now lines.now cores) }
{
    let mut consts = Vec::new(alloc);
    for core in 0..cores {
        consts.push(core_consts(lines, attrs, core))?;
    }
    Ok(ConstList::from_vec(consts))
}

/// The constants of that core: those that the lines give, and the declared starts of the others.
fn core_consts(lines: &[Numbered], attrs: &[Attr], core: CoreId) -> [i32; MAX_ATTRIBUTES]
    ensures { result ≡ core_consts attrs.now lines.now core }
{
    let mut values = starts(attrs);
    for numbered in lines {
        put_line(&mut values, attrs, core, &numbered.line);
    }
    values
}

/// Puts what the line gives of that core in its place.
fn put_line(values: &mut [i32; MAX_ATTRIBUTES], attrs: &[Attr], core: CoreId, line: &TraceLine)
    ensures { values.new ≡ line_put attrs.now core values.old line.now }
{
    if let TraceLine::Core(given) = line {
        if given.core == core {
            put_consts(values, attrs, given.consts.as_slice());
        }
    }
}

/// Puts the constants in their places.
fn put_consts(values: &mut [i32; MAX_ATTRIBUTES], attrs: &[Attr], consts: &[NamedConst])
    ensures { values.new ≡ consts_put attrs.now values.old consts.now }
{
    for given in consts {
        put_const(values, attrs, given);
    }
}

/// Puts the constant in its place, where there is one.
fn put_const(values: &mut [i32; MAX_ATTRIBUTES], attrs: &[Attr], given: &NamedConst)
    ensures { values.new ≡ const_put attrs.now values.old given.now }
{
    if let Some(at) = place_of(attrs, given.name.as_slice()) {
        if at < MAX_ATTRIBUTES {
            values[at] = given.value;
        }
    }
}

/// The place of the first attribute of that name.
fn place_of(attrs: &[Attr], name: &[u8]) -> Option<usize>
    ensures { result ≡ position (is_named name.now) attrs.now }
{
    attrs.iter().position(|attr| is_named(attr, name))
}

/// The starts of the attributes that there is room for.
fn starts(attrs: &[Attr]) -> [i32; MAX_ATTRIBUTES]
    ensures { result ≡ starts attrs.now }
{
    let mut starts = [0; MAX_ATTRIBUTES];
    for at in 0..MAX_ATTRIBUTES {
        starts[at] = start_at(attrs, at);
    }
    starts
}

fn start_at(attrs: &[Attr], at: usize) -> i32
    requires { at < MAX_ATTRIBUTES }
    ensures { result ≡ slice_index_or (starts attrs.now) at (pos 0) }
{
    match attrs.get(at) {
        Some(attr) => attr.start,
        None => 0,
    }
}
