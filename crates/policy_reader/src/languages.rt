//! The policy of a text, by its language.

ghost use Rattle.std.specs.Prelude.{◌≡◌, IfOk, IfErr};
ghost use Rattle.policy_eval.specs.Resolved.{IsResolved};
ghost use Rattle.policy_grammar.specs.declared.language.Language.TheVariants.{LevelTexts, Policies};
ghost use Rattle.policy_grammar.specs.Lexemes.{language_of};
ghost use Rattle.policy_lexer.specs.Tokens.{SpellsTokens};
ghost use Rattle.policy_tree.specs.Meaning.{meaning_of};
ghost use Rattle.policy_reader.specs.Answers.{IsFaultUnlessMemory};
ghost use Rattle.policy_reader.specs.Spelled.{SpellsPolicy};

use crate::fault::PolicyFault;
use crate::places::Places;
use level_policy::{LevelMemory, compile};
use policy_parser::{parse, parse_levels};
use policy_tree::Policy;
use policy_types::{resolve, resolve_levels};
use std::alloc::Global;

impl<'a> Places<'a> {
    /// The policy of a text that says it without levels.
    pub(crate) fn plain_policy(&self, alloc: Global) -> Result<Policy, PolicyFault>
        requires spells { SpellsTokens self.now.text.now self.now.tokens.now }
        requires language { language_of self.now.text.now self.now.tokens.now ≡ Policies }
        ensures policy { IfOk result (λ p. SpellsPolicy self.now.text.now (meaning_of p)) }
        ensures resolved { IfOk result (λ p. IsResolved (meaning_of p)) }
        ensures fault { IfErr result (IsFaultUnlessMemory self.now.text.now) }
    {
        let syntax = match parse(alloc, self.text, self.tokens) {
            Ok(syntax) => syntax,
            Err(fault) => return Err(self.grammar_fault(fault)),
        };
        match resolve(alloc, &syntax) {
            Ok(policy) => Ok(policy),
            Err(fault) => Err(self.rule_fault(fault)),
        }
    }

    /// The policy of a level text: the one that its levels are compiled to.
    pub(crate) fn level_policy(&self, alloc: Global) -> Result<Policy, PolicyFault>
        requires spells { SpellsTokens self.now.text.now self.now.tokens.now }
        requires language { language_of self.now.text.now self.now.tokens.now ≡ LevelTexts }
        ensures policy { IfOk result (λ p. SpellsPolicy self.now.text.now (meaning_of p)) }
        ensures resolved { IfOk result (λ p. IsResolved (meaning_of p)) }
        ensures fault { IfErr result (IsFaultUnlessMemory self.now.text.now) }
    {
        let syntax = match parse_levels(alloc, self.text, self.tokens) {
            Ok(syntax) => syntax,
            Err(fault) => return Err(self.grammar_fault(fault)),
        };
        let levels = match resolve_levels(alloc, &syntax) {
            Ok(levels) => levels,
            Err(fault) => return Err(self.rule_fault(fault)),
        };
        match compile(alloc, &levels) {
            Ok(policy) => Ok(policy),
            Err(LevelMemory::Memory) => Err(PolicyFault::Memory),
        }
    }
}
