//! The syntax of a text.

ghost use Rattle.std.specs.Prelude.{◌≡◌, ◌≤◌, length, IfOk, IfErr};
ghost use Rattle.policy_syntax.specs.LevelTrees.{LevelSyntaxTree, level_syntax_tree};
ghost use Rattle.policy_syntax.specs.SyntaxTrees.{SyntaxTree, syntax_tree};
ghost use Rattle.policy_lexer.specs.Tokens.{SpellsTokens};
ghost use Rattle.sched_base.specs.declared.limits.TheConstants.{MAX_POLICY_BYTES};
ghost use Rattle.policy_grammar.specs.Correct.{IsLevelTextWithin, IsLevelTextFault, IsParseFault, IsWithin};
ghost use Rattle.policy_grammar.specs.OneTree.{IsOnlyLevelSyntax, IsOnlySyntax};
ghost use Rattle.policy_grammar.specs.declared.limits.TheConstants.{POLICY_LIMITS};
ghost use Rattle.policy_parser.specs.Answers.{IsReadUnlessMemory};
ghost use Rattle.policy_grammar.specs.Lexemes.{language_of, lexemes_in, policy_lexemes};
ghost use Rattle.policy_grammar.specs.declared.language.Language.TheVariants.{LevelTexts};

use crate::source::Source;
use crate::words::{is_levels, lexemes};
use policy_grammar::{Language, POLICY_LIMITS, ParseFault};
use policy_lexer::Token;
use policy_syntax::{LevelSyntax, Syntax};
use std::alloc::Global;

/// The language of a text with these tokens: a level text begins with the word `levels`.
pub fn language_of(text: &[u8], tokens: &[Token]) -> Language
    requires small { length text.now ≤ MAX_POLICY_BYTES }
    requires spells { SpellsTokens text.now tokens.now }
    ensures { result ≡ language_of text.now tokens.now }
{
    let first = match tokens.get(0) {
        Some(first) => *first,
        None => return Language::Policies,
    };
    if is_levels(text, first) {
        Language::LevelTexts
    } else {
        Language::Policies
    }
}

/// The syntax of a text with these tokens, or its first fault.
pub fn parse(alloc: Global, text: &[u8], tokens: &[Token]) -> Result<Syntax, ParseFault>
    requires small { length text.now ≤ MAX_POLICY_BYTES }
    requires spells { SpellsTokens text.now tokens.now }
    ensures syntax { IfOk result (λ s. IsWithin POLICY_LIMITS text.now (policy_lexemes text.now tokens.now)
        (syntax_tree s)) }
    ensures only { IfOk result
        (λ s. IsOnlySyntax text.now (policy_lexemes text.now tokens.now) (syntax_tree s)) }
    ensures fault { IfErr result (IsParseFault POLICY_LIMITS text.now (policy_lexemes text.now tokens.now)) }

    // A policy within the limits isn't refused.
    ensures reads { (syntax : SyntaxTree) →
        IsWithin POLICY_LIMITS text.now (policy_lexemes text.now tokens.now) syntax →
        IsReadUnlessMemory result }
{
    let lexemes = lexemes(alloc, Language::Policies, text, tokens)?;
    let source = Source {
        alloc,
        text,
        lexemes: lexemes.as_slice(),
        limits: POLICY_LIMITS,
    };
    source.policy()
}

/// The syntax of a level text with these tokens, or its first fault.
pub fn parse_levels(alloc: Global, text: &[u8], tokens: &[Token]) -> Result<LevelSyntax, ParseFault>
    requires small { length text.now ≤ MAX_POLICY_BYTES }
    requires spells { SpellsTokens text.now tokens.now }
    ensures syntax { IfOk result (λ s.
        IsLevelTextWithin POLICY_LIMITS text.now (lexemes_in LevelTexts text.now tokens.now) (level_syntax_tree s)) }
    ensures only { IfOk result (λ s.
        IsOnlyLevelSyntax text.now (lexemes_in LevelTexts text.now tokens.now) (level_syntax_tree s)) }
    ensures fault { IfErr result
        (IsLevelTextFault POLICY_LIMITS text.now (lexemes_in LevelTexts text.now tokens.now)) }

    // A level text within the limits isn't refused.
    ensures reads { (syntax : LevelSyntaxTree) →
        IsLevelTextWithin POLICY_LIMITS text.now (lexemes_in LevelTexts text.now tokens.now) syntax →
        IsReadUnlessMemory result }
{
    let lexemes = lexemes(alloc, Language::LevelTexts, text, tokens)?;
    let source = Source {
        alloc,
        text,
        lexemes: lexemes.as_slice(),
        limits: POLICY_LIMITS,
    };
    source.level_text()
}
