//! The parts that policies and level texts have in common: all but what they declare, and the filter or the levels.

ghost use Rattle.std.specs.Prelude.{◌≡◌, ◌<◌, IfOk, IfErr, [], map, option_map};
ghost use Rattle.policy_tree.specs.Meaning.{batch_tree, meaning_of, order_tree, place_tree};
ghost use Rattle.policy_tree.specs.Trees.{cond_tree};
ghost use Rattle.policy_syntax.specs.SyntaxTrees.{batch_syntax_tree, elect_syntax_tree, handler_syntax_tree};
ghost use Rattle.policy_syntax.specs.SyntaxTrees.{order_syntax_tree};
ghost use Rattle.policy_types.specs.Conditions.{elect_faults, elect_meaning};
ghost use Rattle.policy_types.specs.Faults.{IsFirst};
ghost use Rattle.policy_types.specs.Parts.{AreChoices, IsRunning, meaning_with};
ghost use Rattle.policy_types.specs.Policies.{batch_faults, batch_meaning, choices_faults, limit_faults, place_faults};
ghost use Rattle.policy_types.specs.Policies.{place_meaning, running_faults};

use crate::fault::TypeFault;
use crate::scope::Scope;
use crate::sites::Site;
use lists::Items;
use policy_syntax::{BatchSyntax, ElectSyntax, HandlerSyntax, OrderSyntax, PlaceSyntax};
use policy_tree::{Batch, Cond, HandlerList, Load, Name, Order, PlaceRule, Policy};
use sched_base::MAX_STOLEN;
use std::alloc::Global;

/// What a policy says of threads that stay on their core: where they are placed, which runs next, and what events do to
/// them.
#[derive(Drop)]
pub(crate) struct Running {
    pub(crate) place: PlaceRule,
    pub(crate) elect: Order,
    pub(crate) handlers: HandlerList,
}

/// What a policy says of steals beside its filter.
#[derive(Drop)]
pub(crate) struct Choices {
    pub(crate) choose: Order,
    pub(crate) steal: Order,
    pub(crate) batch: Option<Batch>,
}

impl Scope<'_> {
    /// What is said of threads that stay on their core.
    pub(crate) fn running(
        &self,
        alloc: Global,
        place: &Option<PlaceSyntax>,
        elect: &Option<ElectSyntax>,
        handlers: &[HandlerSyntax],
    ) -> Result<Running, TypeFault>
        ensures is { IfOk result (IsRunning self.now place.now (option_map elect_syntax_tree elect.now)
            (map handler_syntax_tree handlers.now)) }
        ensures sound { IfOk result (λ r. running_faults self.now place.now (option_map elect_syntax_tree elect.now)
            (map handler_syntax_tree handlers.now) ≡ []) }
        ensures fault { IfErr result (IsFirst (running_faults self.now place.now
            (option_map elect_syntax_tree elect.now) (map handler_syntax_tree handlers.now))) }
    {
        let place = self.place(alloc, place)?;
        let elect = self.elect(alloc, elect)?;
        let handlers = self.handlers(alloc, handlers)?;
        Ok(Running {
            place,
            elect,
            handlers,
        })
    }

    /// The orders and the batch of steals.
    pub(crate) fn choices(
        &self,
        alloc: Global,
        choose: &OrderSyntax,
        steal: &OrderSyntax,
        batch: &Option<BatchSyntax>,
    ) -> Result<Choices, TypeFault>
        ensures are { IfOk result (AreChoices self.now (order_syntax_tree choose.now) (order_syntax_tree steal.now)
            (option_map batch_syntax_tree batch.now)) }
        ensures sound { IfOk result (λ c. choices_faults self.now (order_syntax_tree choose.now)
            (order_syntax_tree steal.now) (option_map batch_syntax_tree batch.now) ≡ []) }
        ensures fault { IfErr result (IsFirst (choices_faults self.now (order_syntax_tree choose.now)
            (order_syntax_tree steal.now) (option_map batch_syntax_tree batch.now))) }
    {
        let choose = self.order(alloc, Site::Choose, choose)?;
        let steal = self.order(alloc, Site::Steal, steal)?;
        let batch = self.batch(alloc, batch)?;
        Ok(Choices {
            choose,
            steal,
            batch,
        })
    }

    /// The policy of that name and load that declares this and has that filter, of these parts.
    pub(crate) fn policy_with(
        self,
        name: Name,
        load: Load,
        running: Running,
        filter: Cond,
        choices: Choices,
    ) -> Policy
        ensures { meaning_of result ≡ meaning_with self.entry name load running (cond_tree filter) choices }
    {
        Policy {
            name,
            load,
            core_attrs: self.cores.into_list(),
            thread_attrs: self.threads.into_list(),
            place: running.place,
            elect: running.elect,
            handlers: running.handlers,
            filter,
            choose: choices.choose,
            steal: choices.steal,
            batch: choices.batch,
        }
    }

    /// Where threads are placed.
    fn place(&self, alloc: Global, place: &Option<PlaceSyntax>) -> Result<PlaceRule, TypeFault>
        ensures tree { IfOk result (λ p. place_tree p ≡ place_meaning self.now place.now) }
        ensures sound { IfOk result (λ p. place_faults self.now place.now ≡ []) }
        ensures fault { IfErr result (IsFirst (place_faults self.now place.now)) }
    {
        match place {
            Some(PlaceSyntax::Least { value, .. }) => {
                Ok(PlaceRule::Least(self.expr(alloc, Site::Placement, value)?))
            }
            Some(PlaceSyntax::Here { .. }) | None => Ok(PlaceRule::Here),
        }
    }

    /// Which thread runs next.
    fn elect(&self, alloc: Global, elect: &Option<ElectSyntax>) -> Result<Order, TypeFault>
        ensures tree { IfOk result
            (λ o. order_tree o ≡ elect_meaning self.now (option_map elect_syntax_tree elect.now)) }
        ensures sound { IfOk result (λ o. elect_faults self.now (option_map elect_syntax_tree elect.now) ≡ []) }
        ensures fault { IfErr result (IsFirst (elect_faults self.now (option_map elect_syntax_tree elect.now))) }
    {
        match elect {
            Some(elect) => self.order(alloc, Site::Elect, &elect.order),
            None => Ok(Items::from_vec(Vec::new(alloc))),
        }
    }

    /// When a steal goes on.
    fn batch(&self, alloc: Global, batch: &Option<BatchSyntax>) -> Result<Option<Batch>, TypeFault>
        ensures tree { IfOk result (λ b.
            option_map batch_tree b ≡ batch_meaning self.now (option_map batch_syntax_tree batch.now)) }
        ensures sound { IfOk result (λ b.
            batch_faults self.now (option_map batch_syntax_tree batch.now) ≡ []) }
        ensures fault { IfErr result
            (IsFirst (batch_faults self.now (option_map batch_syntax_tree batch.now))) }
    {
        match batch {
            None => Ok(None),
            Some(batch) => {
                let cond = self.condition(alloc, Site::GoingOn, &batch.condition)?;
                let limit = limit(batch)?;
                Ok(Some(Batch { cond, limit }))
            }
        }
    }
}

/// The most threads that one steal moves.
fn limit(batch: &BatchSyntax) -> Result<u32, TypeFault>
    ensures value { IfOk result (λ n. n ≡ batch.now.limit) }
    ensures sound { IfOk result (λ n. limit_faults (batch_syntax_tree batch.now) ≡ []) }
    ensures fault { IfErr result (IsFirst (limit_faults (batch_syntax_tree batch.now))) }
{
    if 1 <= batch.limit && batch.limit <= MAX_STOLEN as u64 {
        Ok(batch.limit as u32)
    } else {
        Err(TypeFault::BadRange(batch.limit_at))
    }
}
