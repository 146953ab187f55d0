//! What a policy declares, and what a word refers to there.

ghost use Rattle.std.specs.Prelude.{◌≡◌};
ghost use Rattle.policy_types.specs.References.{attributes_of, feature_among, feature_of, reference_of};

use crate::attributes::Attributes;
use crate::sites::{Feature, variable_of};
use policy_syntax::Owner;
use policy_tree::Name;
use sched_base::MAX_VARIABLES;

/// The attributes that a policy declares, of cores and of threads.
#[derive(Drop)]
pub struct Scope<'a> {
    pub cores: Attributes<'a>,
    pub threads: Attributes<'a>,
}

impl<'a> Scope<'a> {
    /// The attributes that the owner has.
    fn attributes(&self, owner: Owner) -> &Attributes<'a>
        ensures { result.now ≡ attributes_of self.now owner }
    {
        match owner {
            Owner::Itself | Owner::Victim | Owner::Core => &self.cores,
            Owner::Thread => &self.threads,
        }
    }

    /// What the word says of the owner, if it is known.
    pub(crate) fn feature(&self, owner: Owner, word: &Name) -> Option<Feature>
        ensures { result ≡ feature_of self.now owner word.now }
    {
        feature_among(self.attributes(owner), word)
    }

    /// The number of the variable that the word of the owner is. What is none has the number behind
    /// the last.
    pub(crate) fn reference(&self, owner: Owner, word: &Name) -> u32
        ensures { result ≡ reference_of self.now owner word.now }
    {
        match self.feature(owner, word) {
            Some(feature) => variable_of(owner, feature),
            None => MAX_VARIABLES as u32,
        }
    }
}

/// What the word says of an owner that has these attributes.
pub(crate) fn feature_among(attrs: &Attributes, word: &Name) -> Option<Feature>
    ensures { result ≡ feature_among attrs.now word.now }
{
    let bytes = word.as_slice();
    if bytes == b"nr".as_slice() {
        Some(Feature::Nr)
    } else if bytes == b"load".as_slice() {
        Some(Feature::Load)
    } else if bytes == b"weight".as_slice() {
        Some(Feature::Weight)
    } else if bytes == b"fresh".as_slice() {
        Some(Feature::Fresh)
    } else {
        attrs.number_of(bytes).map(Feature::Attribute)
    }
}
