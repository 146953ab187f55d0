//! Which policy by levels a syntax is.

ghost use Rattle.std.specs.Prelude.{◌≡◌, ◌<◌, ◌^◌, IfOk, IfErr, [], length, map};
ghost use Rattle.level_policy.specs.Levels.{level_tree, levels_meaning};
ghost use Rattle.level_policy.specs.ResolvedLevels.{AreResolved};
ghost use Rattle.policy_syntax.specs.LevelTrees.{level_syntax_tree, one_level_syntax_tree};
ghost use Rattle.policy_types.specs.Correct.{IsLeast, IsOfLevelGrammar};
ghost use Rattle.policy_types.specs.Faults.{IsFirst};
ghost use Rattle.policy_types.specs.Levels.{headed, level_faults, level_text_faults_in, level_list_faults};
ghost use Rattle.policy_types.specs.Levels.{level_meaning};
ghost use Rattle.policy_types.specs.Levels.{level_text_faults, level_text_meaning, level_text_meaning_in};

use crate::declarations::{attributes, copy_of_name, load};
use crate::fault::TypeFault;
use crate::scope::Scope;
use crate::sites::Site;
use level_policy::{Level, LevelList, Levels};
use lists::Items;
use policy_syntax::{LevelSyntax, OneLevelSyntax};
use policy_tree::{Cond, Load, Name};
use std::alloc::Global;

/// The policy by levels of that syntax, or the first rule of names, ranges and phases that it breaks.
///
/// It takes any syntax. That the policy is a resolved one, and that no fault names an earlier token
/// than the one that is answered, is said of a syntax that the grammar has within its limits.
pub fn resolve_levels(alloc: Global, syntax: &LevelSyntax) -> Result<Levels, TypeFault>
    ensures levels { IfOk result (λ l. levels_meaning l ≡ level_text_meaning (level_syntax_tree syntax.now)) }
    ensures sound { IfOk result (λ l. level_text_faults (level_syntax_tree syntax.now) ≡ []) }
    ensures fault { IfErr result (IsFirst (level_text_faults (level_syntax_tree syntax.now))) }
    ensures resolved { IfOk result (λ l.
        IsOfLevelGrammar (level_syntax_tree syntax.now) → AreResolved (levels_meaning l)) }
    ensures least { IfErr result (λ fault. IsOfLevelGrammar (level_syntax_tree syntax.now) →
        IsLeast (level_text_faults (level_syntax_tree syntax.now)) fault) }
{
    levels_of(alloc, syntax)
}

/// The policy by levels of that syntax, or the first rule that it breaks in the order of the text.
fn levels_of(alloc: Global, syntax: &LevelSyntax) -> Result<Levels, TypeFault>
    ensures levels { IfOk result (λ l. levels_meaning l ≡ level_text_meaning (level_syntax_tree syntax.now)) }
    ensures sound { IfOk result (λ l. level_text_faults (level_syntax_tree syntax.now) ≡ []) }
    ensures fault { IfErr result (IsFirst (level_text_faults (level_syntax_tree syntax.now))) }
{
    let load = load(&syntax.load)?;
    let scope = attributes(alloc, syntax.attrs.as_slice())?;
    let name = copy_of_name(alloc, &syntax.name)?;
    scope.level_text(alloc, name, load, syntax)
}

impl Scope<'_> {
    /// The policy by levels of that name and load that declares this.
    fn level_text(
        self,
        alloc: Global,
        name: Name,
        load: Load,
        syntax: &LevelSyntax,
    ) -> Result<Levels, TypeFault>
        ensures levels { IfOk result (λ l.
            levels_meaning l ≡ headed name load (level_text_meaning_in self.entry (level_syntax_tree syntax.now))) }
        ensures sound { IfOk result (λ l. level_text_faults_in self.entry (level_syntax_tree syntax.now) ≡ []) }
        ensures fault { IfErr result (IsFirst (level_text_faults_in self.entry (level_syntax_tree syntax.now))) }
    {
        let handlers = syntax.handlers.as_slice();
        let running = self.running(alloc, &syntax.place, &syntax.elect, handlers)?;
        let levels = self.level_list(alloc, syntax.levels.as_slice())?;
        let choices = self.choices(alloc, &syntax.choose, &syntax.steal, &syntax.batch)?;
        let plain = self.policy_with(name, load, running, Cond::Always, choices);
        Ok(Levels { plain, levels })
    }

    /// The levels.
    fn level_list(&self, alloc: Global, read: &[OneLevelSyntax]) -> Result<LevelList, TypeFault>
        requires { length read.now < 2 ^ 32 }
        ensures tree { IfOk result (λ ls.
            map level_tree ls ≡ map (level_meaning self.now) (map one_level_syntax_tree read.now)) }
        ensures sound { IfOk result (λ ls.
            level_list_faults self.now (map one_level_syntax_tree read.now) ≡ []) }
        ensures fault { IfErr result
            (IsFirst (level_list_faults self.now (map one_level_syntax_tree read.now))) }
    {
        let mut levels = Vec::new(alloc);
        for level in read {
            levels.push(self.level(alloc, level)?)?;
        }
        Ok(Items::from_vec(levels))
    }

    /// A level.
    fn level(&self, alloc: Global, level: &OneLevelSyntax) -> Result<Level, TypeFault>
        ensures tree { IfOk result (λ l. level_tree l ≡ level_meaning self.now (one_level_syntax_tree level.now)) }
        ensures sound { IfOk result (λ l. level_faults self.now (one_level_syntax_tree level.now) ≡ []) }
        ensures fault { IfErr result (IsFirst (level_faults self.now (one_level_syntax_tree level.now))) }
    {
        let within = self.condition(alloc, Site::Within, &level.within)?;
        let filter = self.condition(alloc, Site::Filter, &level.filter)?;
        Ok(Level { within, filter })
    }
}
