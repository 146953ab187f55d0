//! Policies that differ in their load and in their attributes of cores. `LOAD` or `LOAD ATTRIBUTE ATTRIBUTE ..` spells
//! one: the load is `count` or `LO..HI`, and an attribute is `LO..HI=START`.

use policy_tree::{
    Attr, AttrList, CaseList, Cond, HandlerList, Load, Name, Order, PlaceRule, Policy,
};
use sched_base::MAX_ATTRIBUTES;
use std::alloc::{AllocError, Global};

/// The range of an attribute, and its start.
#[derive(Clone, Copy)]
struct Declared {
    lo: i32,
    hi: i32,
    start: i32,
}

/// The load that is spelled so, in front of the attributes.
pub(crate) fn load_of(spelling: &str) -> Option<Load> {
    let load = spelling.split(' ').next()?;
    if load == "count" {
        return Some(Load::Count);
    }
    let (lo, hi) = load.split_once("..")?;
    Some(Load::Weight {
        lo: lo.parse().ok()?,
        hi: hi.parse().ok()?,
    })
}

/// The attributes that are spelled so. The first is `size`, the others are `node`.
fn attributes_of(alloc: Global, spelling: &str) -> Result<AttrList, AllocError> {
    let mut attrs = Vec::new(alloc);
    for range in spelling.split(' ').filter_map(read_declared) {
        let name = if attrs.is_empty() { b"size" } else { b"node" };
        attrs.push(attribute(alloc, name, range)?)?;
    }
    if attrs.len() > MAX_ATTRIBUTES {
        return Err(AllocError);
    }
    Ok(AttrList::from_vec(attrs))
}

/// `LO..HI=START`.
fn read_declared(word: &str) -> Option<Declared> {
    let (range, start) = word.split_once('=')?;
    let (lo, hi) = range.split_once("..")?;
    Some(Declared {
        lo: lo.parse().ok()?,
        hi: hi.parse().ok()?,
        start: start.parse().ok()?,
    })
}

/// An attribute of that name.
fn attribute(alloc: Global, name: &[u8; 4], range: Declared) -> Result<Attr, AllocError> {
    let Declared { lo, hi, start } = range;
    let name = Name::from_vec(Vec::from_slice(alloc, name)?);
    Ok(Attr {
        name,
        lo,
        hi,
        start,
    })
}

/// The policy that always steals, with this load and the attributes of cores that are spelled so.
pub(crate) fn policy(alloc: Global, load: Load, attributes: &str) -> Result<Policy, AllocError> {
    let core_attrs = attributes_of(alloc, attributes)?;
    let name = Name::from_vec(Vec::from_slice(alloc, b"always")?);
    Ok(Policy {
        name,
        load,
        core_attrs,
        thread_attrs: AttrList::from_vec(Vec::new(alloc)),
        place: PlaceRule::Here,
        elect: Order::from_vec(Vec::new(alloc)),
        handlers: HandlerList::new(
            CaseList::from_vec(Vec::new(alloc)),
            CaseList::from_vec(Vec::new(alloc)),
            CaseList::from_vec(Vec::new(alloc)),
            CaseList::from_vec(Vec::new(alloc)),
        ),
        filter: Cond::Always,
        choose: Order::from_vec(Vec::new(alloc)),
        steal: Order::from_vec(Vec::new(alloc)),
        batch: None,
    })
}
