//! Copies of the parts of a policy that have no handlers, equal to what they are copies of in everything but the
//! places where they lie.

ghost use Rattle.std.specs.Prelude.{◌≡◌, IfOk, option_map};
ghost use Rattle.policy_tree.specs.Meaning.{batch_tree, place_tree};

use lists::Items;
use policy_tree::{Attr, AttrList, Batch, Name, PlaceRule, copy_of_cond, copy_of_expr};
use std::alloc::{AllocError, Global};

/// A copy of a name.
pub(crate) fn copy_of_name(alloc: Global, name: &Name) -> Result<Name, AllocError>
    ensures { IfOk result (λ copy. copy ≡ name.now) }
{
    Ok(Items::from_vec(Vec::from_slice(alloc, name.as_slice())?))
}

/// A copy of what is declared.
pub(crate) fn copy_of_attrs(alloc: Global, attrs: &AttrList) -> Result<AttrList, AllocError>
    ensures { IfOk result (λ copy. copy ≡ attrs.now) }
{
    let attrs = attrs.as_slice();
    let mut copy = Vec::new(alloc);
    for attr in attrs {
        copy.push(copy_of_attr(alloc, attr)?)?;
    }
    Ok(Items::from_vec(copy))
}

/// A copy of an attribute.
fn copy_of_attr(alloc: Global, attr: &Attr) -> Result<Attr, AllocError>
    ensures { IfOk result (λ copy. copy ≡ attr.now) }
{
    Ok(Attr {
        name: copy_of_name(alloc, &attr.name)?,
        lo: attr.lo,
        hi: attr.hi,
        start: attr.start,
    })
}

/// A copy of where threads are placed.
pub(crate) fn copy_of_place(alloc: Global, place: &PlaceRule) -> Result<PlaceRule, AllocError>
    ensures { IfOk result (λ copy. place_tree copy ≡ place_tree place.now) }
{
    match place {
        PlaceRule::Here => Ok(PlaceRule::Here),
        PlaceRule::Least(expr) => Ok(PlaceRule::Least(copy_of_expr(alloc, expr)?)),
    }
}

/// A copy of when a steal goes on.
pub(crate) fn copy_of_batch(
    alloc: Global,
    batch: &Option<Batch>,
) -> Result<Option<Batch>, AllocError>
    ensures { IfOk result (λ copy. option_map batch_tree copy ≡ option_map batch_tree batch.now) }
{
    match batch {
        None => Ok(None),
        Some(batch) => Ok(Some(Batch {
            cond: copy_of_cond(alloc, &batch.cond)?,
            limit: batch.limit,
        })),
    }
}
