//! Prints orders.

ghost use Rattle.std.specs.Prelude.{OnOk};
ghost use Rattle.policy_syntax.specs.SyntaxTrees.{key_syntax_tree, order_syntax_tree};
ghost use Rattle.policy_printer.specs.Adds.{Prints};
ghost use Rattle.policy_printer.specs.OrderTexts.{key_texts, further_key_texts, order_texts};

use crate::printer::Printer;
use crate::words::key_text;
use policy_syntax::{KeySyntax, OrderSyntax};
use std::alloc::AllocError;

impl Printer {
    fn key(&mut self, key: &KeySyntax) -> Result<(), AllocError>
        ensures { OnOk result (Prints (key_texts (key_syntax_tree key.now)) self.old self.new) }
    {
        match key {
            KeySyntax::Ranked {
                greatest,
                value,
                ..
            } => {
                self.word(key_text(*greatest))?;
                self.expression(value)
            }
            KeySyntax::Preferring { condition, .. } => {
                self.word("prefer")?;
                self.condition(condition)
            }
        }
    }

    fn further_key(&mut self, key: &KeySyntax) -> Result<(), AllocError>
        ensures { OnOk result
            (Prints (further_key_texts (key_syntax_tree key.now)) self.old self.new) }
    {
        self.word(",")?;
        self.key(key)
    }

    pub(crate) fn order(&mut self, order: &OrderSyntax) -> Result<(), AllocError>
        ensures { OnOk result
            (Prints (order_texts (order_syntax_tree order.now)) self.old self.new) }
    {
        let (first, rest) = match order.keys.as_slice().split_first() {
            Some(keys) => keys,
            None => return self.word("first"),
        };
        self.key(first)?;
        for key in rest {
            self.further_key(key)?;
        }
        Ok(())
    }
}
