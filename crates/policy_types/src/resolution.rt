//! Which policy a syntax is.

ghost use Rattle.std.specs.Prelude.{◌≡◌, IfOk, IfErr, []};
ghost use Rattle.policy_tree.specs.Meaning.{meaning_of};
ghost use Rattle.policy_syntax.specs.SyntaxTrees.{syntax_tree};
ghost use Rattle.policy_eval.specs.Resolved.{IsResolved};
ghost use Rattle.policy_types.specs.Correct.{IsLeast, IsOfGrammar};
ghost use Rattle.policy_types.specs.Faults.{IsFirst};
ghost use Rattle.policy_types.specs.Policies.{faults_in, meaning_in, policy_faults, policy_meaning};

use crate::declarations::{attributes, copy_of_name, load};
use crate::fault::TypeFault;
use crate::scope::Scope;
use crate::sites::Site;
use policy_syntax::Syntax;
use policy_tree::{Load, Name, Policy};
use std::alloc::Global;

/// The policy of that syntax, or the first rule of names, ranges and phases that it breaks.
///
/// It takes any syntax. That the policy is a resolved one, and that no fault names an earlier token
/// than the one that is answered, is said of a syntax that the grammar has within its limits.
pub fn resolve(alloc: Global, syntax: &Syntax) -> Result<Policy, TypeFault>
    ensures policy { IfOk result (λ p. meaning_of p ≡ policy_meaning (syntax_tree syntax.now)) }
    ensures sound { IfOk result (λ p. policy_faults (syntax_tree syntax.now) ≡ []) }
    ensures fault { IfErr result (IsFirst (policy_faults (syntax_tree syntax.now))) }
    ensures resolved { IfOk result (λ p.
        IsOfGrammar (syntax_tree syntax.now) → IsResolved (meaning_of p)) }
    ensures least { IfErr result (λ fault. IsOfGrammar (syntax_tree syntax.now) →
        IsLeast (policy_faults (syntax_tree syntax.now)) fault) }
{
    policy_of(alloc, syntax)
}

/// The policy of that syntax, or the first rule that it breaks in the order of the text.
fn policy_of(alloc: Global, syntax: &Syntax) -> Result<Policy, TypeFault>
    ensures policy { IfOk result (λ p. meaning_of p ≡ policy_meaning (syntax_tree syntax.now)) }
    ensures sound { IfOk result (λ p. policy_faults (syntax_tree syntax.now) ≡ []) }
    ensures fault { IfErr result (IsFirst (policy_faults (syntax_tree syntax.now))) }
{
    let load = load(&syntax.load)?;
    let scope = attributes(alloc, syntax.attrs.as_slice())?;
    let name = copy_of_name(alloc, &syntax.name)?;
    scope.policy(alloc, name, load, syntax)
}

impl Scope<'_> {
    /// The policy of that name and load that declares this.
    fn policy(
        self,
        alloc: Global,
        name: Name,
        load: Load,
        syntax: &Syntax,
    ) -> Result<Policy, TypeFault>
        ensures policy { IfOk result (λ p. meaning_of p ≡
            record (meaning_in self.entry (syntax_tree syntax.now)) { name = name; load = load }) }
        ensures sound { IfOk result (λ p. faults_in self.entry (syntax_tree syntax.now) ≡ []) }
        ensures fault { IfErr result (IsFirst (faults_in self.entry (syntax_tree syntax.now))) }
    {
        let handlers = syntax.handlers.as_slice();
        let running = self.running(alloc, &syntax.place, &syntax.elect, handlers)?;
        let filter = self.condition(alloc, Site::Filter, &syntax.filter)?;
        let choices = self.choices(alloc, &syntax.choose, &syntax.steal, &syntax.batch)?;
        Ok(self.policy_with(name, load, running, filter, choices))
    }
}
