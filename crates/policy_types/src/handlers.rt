//! Which handlers a syntax is.

ghost use Rattle.std.specs.Prelude.{◌≡◌, ◌<◌, ◌^◌, length, [], IfOk, IfErr, Option, map, option_map, is_some};
ghost use Rattle.std.specs.Prelude.{if◌then◌else◌, Some};
ghost use Rattle.policy_tree.specs.declared.typed.Event.{Event};
ghost use Rattle.policy_tree.specs.Meaning.{case_tree, handler_trees, set_tree};
ghost use Rattle.policy_syntax.specs.SyntaxTrees.{case_syntax_tree, handler_syntax_tree};
ghost use Rattle.policy_types.specs.Faults.{IsFirst};
ghost use Rattle.policy_types.specs.Given.{cases_or, given_cases, given_or_default};
ghost use Rattle.policy_types.specs.Handlers.{case_faults, case_meaning, cases_faults, default_cases, default_put};
ghost use Rattle.policy_types.specs.Handlers.{handlers_faults, handlers_meaning, same_event, set_faults, set_meaning};
ghost use Rattle.policy_types.specs.Handlers.{sets_faults, target_faults, target_of};
ghost use Rattle.policy_types.specs.References.{feature_among};

use crate::fault::TypeFault;
use crate::scope::{Scope, feature_among};
use crate::sites::{Feature, Site, allows_put};
use lists::Items;
use policy_syntax::{CaseSyntax, HandlerSyntax, SetSyntax};
use policy_tree::{Case, CaseList, Cond, Event, HandlerList, Name, Put, Set, SetList};
use std::alloc::{AllocError, Global};

/// The cases of the events whose handlers were read.
#[derive(Drop)]
pub(crate) struct Given {
    on_enqueue: Option<CaseList>,
    on_tick: Option<CaseList>,
    on_yield: Option<CaseList>,
    on_block: Option<CaseList>,
}

impl Given {
    /// Whether a handler of the event was read.
    fn has(&self, event: Event) -> bool
        ensures { result ≡ is_some (given_cases self.now event) }
    {
        match event {
            Event::Enqueue => self.on_enqueue.is_some(),
            Event::Tick => self.on_tick.is_some(),
            Event::Yield => self.on_yield.is_some(),
            Event::Block => self.on_block.is_some(),
        }
    }

    /// The handler of one event more.
    fn with(self, event: Event, cases: CaseList) -> Given
        ensures { (e : Event) → given_cases result e ≡
            (if same_event e event then Some (map case_tree cases) else given_cases self e) }
    {
        let mut given = self;
        match event {
            Event::Enqueue => given.on_enqueue = Some(cases),
            Event::Tick => given.on_tick = Some(cases),
            Event::Yield => given.on_yield = Some(cases),
            Event::Block => given.on_block = Some(cases),
        }
        given
    }

    /// The handlers, with those that are meant where nothing is said.
    fn or_default(self, alloc: Global) -> Result<HandlerList, AllocError>
        ensures { IfOk result (λ h. handler_trees h ≡ given_or_default self) }
    {
        let on_enqueue = cases_or_default(alloc, self.on_enqueue, Event::Enqueue)?;
        let on_tick = cases_or_default(alloc, self.on_tick, Event::Tick)?;
        let on_yield = cases_or_default(alloc, self.on_yield, Event::Yield)?;
        let on_block = cases_or_default(alloc, self.on_block, Event::Block)?;
        Ok(HandlerList::new(on_enqueue, on_tick, on_yield, on_block))
    }
}

impl Scope<'_> {
    /// The handlers.
    pub(crate) fn handlers(
        &self,
        alloc: Global,
        handlers: &[HandlerSyntax],
    ) -> Result<HandlerList, TypeFault>
        ensures tree { IfOk result (λ h.
            handler_trees h ≡ handlers_meaning self.now (map handler_syntax_tree handlers.now)) }
        ensures sound { IfOk result (λ h.
            handlers_faults self.now [] (map handler_syntax_tree handlers.now) ≡ []) }
        ensures fault { IfErr result
            (IsFirst (handlers_faults self.now [] (map handler_syntax_tree handlers.now))) }
    {
        let mut given = Given {
            on_enqueue: None,
            on_tick: None,
            on_yield: None,
            on_block: None,
        };
        for handler in handlers {
            if given.has(handler.event) {
                return Err(TypeFault::Twice(handler.at.saturating_add(1)));
            }
            let cases = self.cases(alloc, handler.event, handler.cases.as_slice())?;
            given = given.with(handler.event, cases);
        }
        Ok(given.or_default(alloc)?)
    }

    /// The cases of the handler of that event.
    fn cases(
        &self,
        alloc: Global,
        event: Event,
        cases: &[CaseSyntax],
    ) -> Result<CaseList, TypeFault>
        requires { length cases.now < 2 ^ 32 }
        ensures tree { IfOk result (λ cs.
            map case_tree cs ≡ map (case_meaning self.now) (map case_syntax_tree cases.now)) }
        ensures sound { IfOk result (λ cs.
            cases_faults self.now event (map case_syntax_tree cases.now) ≡ []) }
        ensures fault { IfErr result
            (IsFirst (cases_faults self.now event (map case_syntax_tree cases.now))) }
    {
        let mut read = Vec::new(alloc);
        for case in cases {
            read.push(self.case(alloc, event, case)?)?;
        }
        Ok(Items::from_vec(read))
    }

    /// A case of the handler of that event.
    fn case(&self, alloc: Global, event: Event, case: &CaseSyntax) -> Result<Case, TypeFault>
        ensures tree { IfOk result (λ c.
            case_tree c ≡ case_meaning self.now (case_syntax_tree case.now)) }
        ensures sound { IfOk result (λ c.
            case_faults self.now event (case_syntax_tree case.now) ≡ []) }
        ensures fault { IfErr result
            (IsFirst (case_faults self.now event (case_syntax_tree case.now))) }
    {
        let guard = self.condition(alloc, Site::Handler(event), &case.guard)?;
        let sets = self.sets(alloc, event, case.sets.as_slice())?;
        if !allows_put(event, case.put) {
            return Err(TypeFault::NotHere(case.put_at));
        }
        Ok(Case {
            guard,
            sets,
            put: case.put,
        })
    }

    /// The assignments of a case of the handler of that event.
    fn sets(&self, alloc: Global, event: Event, sets: &[SetSyntax]) -> Result<SetList, TypeFault>
        requires { length sets.now < 2 ^ 32 }
        ensures tree { IfOk result (λ s. map set_tree s ≡ map (set_meaning self.now) sets.now) }
        ensures sound { IfOk result (λ s. sets_faults self.now event sets.now ≡ []) }
        ensures fault { IfErr result (IsFirst (sets_faults self.now event sets.now)) }
    {
        let mut read = Vec::new(alloc);
        for set in sets {
            read.push(self.set(alloc, event, set)?)?;
        }
        Ok(Items::from_vec(read))
    }

    /// An assignment in a case of the handler of that event.
    fn set(&self, alloc: Global, event: Event, set: &SetSyntax) -> Result<Set, TypeFault>
        ensures tree { IfOk result (λ s. set_tree s ≡ set_meaning self.now set.now) }
        ensures sound { IfOk result (λ s. set_faults self.now event set.now ≡ []) }
        ensures fault { IfErr result (IsFirst (set_faults self.now event set.now)) }
    {
        let attr = self.target(set.at.saturating_add(2), &set.word)?;
        let expr = self.expr(alloc, Site::Handler(event), &set.value)?;
        Ok(Set { attr, expr })
    }

    /// The attribute of threads that is set by that word.
    fn target(&self, at: u32, word: &Name) -> Result<u32, TypeFault>
        ensures number { IfOk result (λ n.
            target_of (feature_among self.now.threads word.now) ≡ Some n) }
        ensures sound { IfOk result (λ n.
            target_faults at (feature_among self.now.threads word.now) ≡ []) }
        ensures fault { IfErr result
            (IsFirst (target_faults at (feature_among self.now.threads word.now))) }
    {
        match feature_among(&self.threads, word) {
            None => Err(TypeFault::Unknown(at)),
            Some(Feature::Attribute(number)) => Ok(number),
            Some(_) => Err(TypeFault::NotHere(at)),
        }
    }
}

/// The cases, or those that are meant where nothing is said.
fn cases_or_default(
    alloc: Global,
    cases: Option<CaseList>,
    event: Event,
) -> Result<CaseList, AllocError>
    ensures { IfOk result (λ cs.
        map case_tree cs ≡ cases_or (default_cases event) (option_map (map case_tree) cases)) }
{
    if let Some(cases) = cases {
        return Ok(cases);
    }
    let mut always = Vec::new(alloc);
    always.push(Case {
        guard: Cond::Always,
        sets: Items::from_vec(Vec::new(alloc)),
        put: default_put(event),
    })?;
    Ok(Items::from_vec(always))
}

/// What comes of the event where nothing is said.
fn default_put(event: Event) -> Put
    ensures { result ≡ default_put event }
{
    match event {
        Event::Enqueue | Event::Yield => Put::Queue,
        Event::Tick => Put::Keep,
        Event::Block => Put::Block,
    }
}
