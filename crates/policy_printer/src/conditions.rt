//! Prints conditions.

ghost use Rattle.std.specs.Prelude.{OnOk};
ghost use Rattle.policy_syntax.specs.SyntaxTrees.{condition_tree, condition_trees};
ghost use Rattle.policy_printer.specs.Adds.{Prints};
ghost use Rattle.policy_printer.specs.ConditionTexts.{condition_texts, parts_texts};

use crate::printer::Printer;
use crate::words::compare_text;
use policy_syntax::ConditionSyntax;
use std::alloc::AllocError;

impl Printer {
    /// A condition. It calls itself for what stands in parentheses and behind `not`, and for the parts
    /// of a chain.
    #[cycle(nested)]
    pub(crate) fn condition(&mut self, condition: &ConditionSyntax) -> Result<(), AllocError>
        ensures { OnOk result
            (Prints (condition_texts (condition_tree condition.now)) self.old self.new) }
    {
        match condition {
            ConditionSyntax::Always { .. } => self.word("always"),
            ConditionSyntax::Not { inner, .. } => {
                self.word("not")?;
                self.condition(inner)
            }
            ConditionSyntax::Group { inner, .. } => {
                self.word("(")?;
                self.condition(inner)?;
                self.word(")")
            }
            ConditionSyntax::And { parts, .. } => self.parts("and", parts.as_slice()),
            ConditionSyntax::Or { parts, .. } => self.parts("or", parts.as_slice()),
            ConditionSyntax::Test {
                compare,
                left,
                right,
                ..
            } => {
                self.expression(left)?;
                self.word(compare_text(*compare))?;
                self.expression(right)
            }
        }
    }

    /// The parts of a chain, with the word between each two.
    #[cycle(nested)]
    fn parts(&mut self, word: &str, parts: &[ConditionSyntax]) -> Result<(), AllocError>
        ensures { OnOk result
            (Prints (parts_texts word.now (condition_trees parts.now)) self.old self.new) }
    {
        let (first, rest) = match parts.split_first() {
            Some(parts) => parts,
            None => return Ok(()),
        };
        self.condition(first)?;
        for part in rest {
            self.word(word)?;
            self.condition(part)?;
        }
        Ok(())
    }
}
