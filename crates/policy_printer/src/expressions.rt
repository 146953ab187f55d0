//! Prints expressions.

ghost use Rattle.std.specs.Prelude.{OnOk};
ghost use Rattle.policy_printer.specs.Adds.{Prints};
ghost use Rattle.policy_printer.specs.ExpressionTexts.{negative_texts, int_texts, range_texts, operand_texts};
ghost use Rattle.policy_printer.specs.ExpressionTexts.{factor_texts, times_texts, term_texts, added_texts, expr_texts};

use crate::printer::Printer;
use crate::words::{owner_text, sign_text};
use policy_syntax::{
    AddedSyntax, ExprSyntax, FactorSyntax, IntSyntax, OperandSyntax, RangeSyntax, TermSyntax,
    TimesSyntax,
};
use std::alloc::AllocError;

impl Printer {
    /// The sign of a number, where it has one.
    fn negative(&mut self, negative: bool) -> Result<(), AllocError>
        ensures { OnOk result (Prints (negative_texts negative) self.old self.new) }
    {
        if negative { self.word("-") } else { Ok(()) }
    }

    pub(crate) fn int(&mut self, int: IntSyntax) -> Result<(), AllocError>
        ensures { OnOk result (Prints (int_texts int) self.old self.new) }
    {
        self.negative(int.negative)?;
        self.number(int.value)
    }

    pub(crate) fn range(&mut self, range: RangeSyntax) -> Result<(), AllocError>
        ensures { OnOk result (Prints (range_texts range) self.old self.new) }
    {
        self.int(range.low)?;
        self.word("..")?;
        self.int(range.high)
    }

    fn operand(&mut self, operand: &OperandSyntax) -> Result<(), AllocError>
        ensures { OnOk result (Prints (operand_texts operand.now) self.old self.new) }
    {
        match operand {
            OperandSyntax::Number(value) => self.number(*value),
            OperandSyntax::Reference { owner, word } => {
                self.word(owner_text(*owner))?;
                self.word(".")?;
                self.token(word.as_slice())
            }
        }
    }

    fn factor(&mut self, factor: &FactorSyntax) -> Result<(), AllocError>
        ensures { OnOk result (Prints (factor_texts factor.now) self.old self.new) }
    {
        for _sign in 0..factor.signs {
            self.word("-")?;
        }
        self.operand(&factor.operand)
    }

    fn times(&mut self, times: &TimesSyntax) -> Result<(), AllocError>
        ensures { OnOk result (Prints (times_texts times.now) self.old self.new) }
    {
        self.word("*")?;
        self.factor(&times.factor)
    }

    fn term(&mut self, term: &TermSyntax) -> Result<(), AllocError>
        ensures { OnOk result (Prints (term_texts term.now) self.old self.new) }
    {
        self.factor(&term.first)?;
        for times in term.rest.as_slice() {
            self.times(times)?;
        }
        Ok(())
    }

    fn added(&mut self, added: &AddedSyntax) -> Result<(), AllocError>
        ensures { OnOk result (Prints (added_texts added.now) self.old self.new) }
    {
        self.word(sign_text(added.minus))?;
        self.term(&added.term)
    }

    pub(crate) fn expression(&mut self, expr: &ExprSyntax) -> Result<(), AllocError>
        ensures { OnOk result (Prints (expr_texts expr.now) self.old self.new) }
    {
        self.term(&expr.first)?;
        for added in expr.rest.as_slice() {
            self.added(added)?;
        }
        Ok(())
    }
}
