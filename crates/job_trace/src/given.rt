//! What the lines of a trace have given so far.

ghost use Rattle.std.specs.Prelude.{◌≡◌, ◌++◌, [], ◌∷◌, false, IfOk, map};
ghost use Rattle.std.specs.List.{list_any};
ghost use Rattle.job_trace.specs.Rules.{const_gift, gift, gifts_of, is_repeated, same_gift};

use crate::trace::{NamedConst, TraceLine};
use indexmap::IndexSet;
use sched_base::CoreId;
use std::alloc::{AllocError, Global};
use std::marker::Model;

/// What was given: the first word of its line, a number and a name.
type Key = (&'static [u8], u32, Vec<u8>);

/// What lines have given, each thing once. A contract sees it in the order in which it was given.
#[derive(Drop)]
pub(crate) struct Given {
    keys: IndexSet<Key>,
}

impl Model for Given {
    ghost use Rattle.std.specs.Prelude.{List, map};
    ghost use Rattle.job_trace.specs.Rules.{Gift};
    ghost use Rattle.job_trace.specs.Keys.{gift_of_key};

    ghost Value = { List Gift };

    ghost view = { λ given. map gift_of_key given.keys.keys };
}

impl Given {
    /// Nothing.
    pub(crate) fn new(alloc: Global) -> Given
        ensures { result ≡ [] }
    {
        Given {
            keys: IndexSet::new(alloc),
        }
    }

    /// Adds what that word, number and name stand for, and answers whether it was given before.
    fn add(
        &mut self,
        alloc: Global,
        word: &'static [u8],
        number: u32,
        name: &[u8],
    ) -> Result<bool, AllocError>
        ensures again { IfOk result
            (λ again. again ≡ list_any (same_gift (gift word.now number name.now)) self.old) }
        ensures keeps { IfOk result
            (λ again. again ≡ false → self.new ≡ self.old ++ gift word.now number name.now ∷ []) }
    {
        let name = Vec::from_slice(alloc, name)?;
        let Ok(new) = self.keys.insert((word, number, name)) else {
            return Err(AllocError);
        };
        Ok(!new)
    }

    /// Adds what the line gives, and answers whether some of it was given before.
    pub(crate) fn take(&mut self, alloc: Global, line: &TraceLine) -> Result<bool, AllocError>
        ensures again { IfOk result (λ again. again ≡ is_repeated self.old (gifts_of line.now)) }
        ensures keeps { IfOk result (λ again. again ≡ false → self.new ≡ self.old ++ gifts_of line.now) }
    {
        match line {
            TraceLine::Cores(_) => self.add(alloc, b"cores".as_slice(), 0, &[]),
            TraceLine::Rounds(_) => self.add(alloc, b"rounds".as_slice(), 0, &[]),
            TraceLine::Entries(_) => self.add(alloc, b"entries".as_slice(), 0, &[]),
            TraceLine::Core(given) => self.take_consts(alloc, given.core, given.consts.as_slice()),
            TraceLine::Thread(thread) => self.add(alloc, b"thread".as_slice(), thread.id, &[]),
            TraceLine::Order(order) => self.add(alloc, b"order".as_slice(), order.round, &[]),
        }
    }

    fn take_consts(
        &mut self,
        alloc: Global,
        core: CoreId,
        consts: &[NamedConst],
    ) -> Result<bool, AllocError>
        ensures again { IfOk result
            (λ again. again ≡ is_repeated self.old (map (const_gift core) consts.now)) }
        ensures keeps { IfOk result
            (λ again. again ≡ false → self.new ≡ self.old ++ map (const_gift core) consts.now) }
    {
        for given in consts {
            if self.add(alloc, b"core".as_slice(), core, given.name.as_slice())? {
                return Ok(true);
            }
        }
        Ok(false)
    }
}
