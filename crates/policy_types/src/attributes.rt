//! Attributes of one kind, numbered by their names.

ghost use Rattle.std.specs.Prelude.{◌≡◌, ◌+◌, ◌<◌, ◌^◌, ◌++◌, [], ◌∷◌, IfOk, None, length, option_map};
ghost use Rattle.policy_types.specs.declared.sites.Feature.TheVariants.{Attribute};
ghost use Rattle.policy_types.specs.References.{attribute_named};

use indexmap::IndexSet;
use lists::Items;
use policy_tree::{Attr, AttrList};
use std::alloc::{AllocError, Global};
use std::marker::Model;

/// Attributes of one kind in the order of their declaration, which is that of their numbers. Contracts see their list.
#[derive(Drop)]
pub struct Attributes<'a> {
    list: AttrList,
    names: IndexSet<&'a [u8]>,
}

impl<'a> Model for Attributes<'a> {
    ghost use Rattle.std.specs.Prelude.{List, map};
    ghost use Rattle.policy_tree.specs.declared.typed.Attr.{Attr};
    ghost use Rattle.policy_types.specs.Numbered.{IsNumbered};

    ghost Value = { List Attr };

    ghost view = { λ attributes. attributes.list };

    ghost invariant = { λ attributes. IsNumbered (map (λ name. name.now) attributes.names.keys) attributes.list };
}

impl<'a> Attributes<'a> {
    /// No attributes.
    pub(crate) fn new(alloc: Global) -> Attributes<'a>
        ensures { result ≡ [] }
    {
        Attributes {
            list: Items::from_vec(Vec::new(alloc)),
            names: IndexSet::new(alloc),
        }
    }

    /// The number of the attribute of that name.
    pub(crate) fn number_of(&self, name: &[u8]) -> Option<u32>
        ensures { option_map Attribute result ≡ attribute_named 0 self.now name.now }
    {
        match self.names.get_index_of(name) {
            Some(number) => Some(number as u32),
            None => None,
        }
    }

    /// These attributes, and one more behind them.
    pub(crate) fn with(self, name: &'a [u8], attr: Attr) -> Result<Attributes<'a>, AllocError>
        requires name { attr.name ≡ name.now }
        requires new { attribute_named 0 self name.now ≡ None }
        requires few { length self + 1 < 2 ^ 32 }
        ensures { IfOk result (λ more. more ≡ self.entry ++ attr ∷ []) }
    {
        let Attributes {
            mut list,
            mut names,
        } = self;
        list.push(attr)?;
        match names.insert(name) {
            Ok(_new) => Ok(Attributes { list, names }),
            Err(_unstored) => Err(AllocError),
        }
    }

    /// The attributes alone.
    pub(crate) fn into_list(self) -> AttrList
        ensures { result ≡ self.entry }
    {
        self.list
    }
}
