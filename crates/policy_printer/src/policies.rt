//! Prints policies.

ghost use Rattle.std.specs.Prelude.{OnOk, map, option_map};
ghost use Rattle.std.specs.List.{flat_map};
ghost use Rattle.policy_syntax.specs.SyntaxTrees.{batch_syntax_tree, case_syntax_tree, elect_syntax_tree};
ghost use Rattle.policy_syntax.specs.SyntaxTrees.{handler_syntax_tree, syntax_tree};
ghost use Rattle.policy_printer.specs.Adds.{Prints};
ghost use Rattle.policy_printer.specs.PolicyTexts.{load_texts, attr_texts, place_texts, elect_texts, set_texts};
ghost use Rattle.policy_printer.specs.PolicyTexts.{batch_texts, case_texts, handler_texts, head_texts, phase_texts};

use crate::printer::Printer;
use crate::words::{event_text, kind_text, put_text};
use policy_syntax::{
    AttrSyntax, BatchSyntax, CaseSyntax, ElectSyntax, HandlerSyntax, LoadSyntax, PlaceSyntax,
    SetSyntax, Syntax,
};
use std::alloc::AllocError;

impl Printer {
    /// What stands between the name and the filter.
    pub(crate) fn head(&mut self, syntax: &Syntax) -> Result<(), AllocError>
        ensures { OnOk result (Prints (head_texts (syntax_tree syntax.now)) self.old self.new) }
    {
        self.load(syntax.load)?;
        self.attrs(syntax.attrs.as_slice())?;
        self.place(&syntax.place)?;
        self.elect(&syntax.elect)?;
        self.handlers(syntax.handlers.as_slice())
    }

    /// The filter, the choice and the steal.
    pub(crate) fn phases(&mut self, syntax: &Syntax) -> Result<(), AllocError>
        ensures { OnOk result (Prints (phase_texts (syntax_tree syntax.now)) self.old self.new) }
    {
        self.word("filter")?;
        self.condition(&syntax.filter)?;
        self.word("choose")?;
        self.order(&syntax.choose)?;
        self.word("steal")?;
        self.order(&syntax.steal)?;
        self.batch(&syntax.batch)
    }

    fn load(&mut self, load: LoadSyntax) -> Result<(), AllocError>
        ensures { OnOk result (Prints (load_texts load) self.old self.new) }
    {
        self.word("load")?;
        match load {
            LoadSyntax::Count { .. } => self.word("count"),
            LoadSyntax::Weight { range, .. } => {
                self.word("weight")?;
                self.range(range)
            }
        }
    }

    fn attrs(&mut self, attrs: &[AttrSyntax]) -> Result<(), AllocError>
        ensures { OnOk result (Prints (flat_map attr_texts attrs.now) self.old self.new) }
    {
        for attr in attrs {
            self.attr(attr)?;
        }
        Ok(())
    }

    fn attr(&mut self, attr: &AttrSyntax) -> Result<(), AllocError>
        ensures { OnOk result (Prints (attr_texts attr.now) self.old self.new) }
    {
        self.word(kind_text(attr.of_cores))?;
        self.token(attr.name.as_slice())?;
        self.word("in")?;
        self.range(attr.range)?;
        self.word("start")?;
        self.int(attr.start)
    }

    fn place(&mut self, place: &Option<PlaceSyntax>) -> Result<(), AllocError>
        ensures { OnOk result (Prints (place_texts place.now) self.old self.new) }
    {
        match place {
            None => Ok(()),
            Some(PlaceSyntax::Here { .. }) => {
                self.word("place")?;
                self.word("here")
            }
            Some(PlaceSyntax::Least { value, .. }) => {
                self.word("place")?;
                self.word("min")?;
                self.expression(value)
            }
        }
    }

    fn elect(&mut self, elect: &Option<ElectSyntax>) -> Result<(), AllocError>
        ensures { OnOk result (Prints (elect_texts (option_map elect_syntax_tree elect.now)) self.old self.new) }
    {
        match elect {
            None => Ok(()),
            Some(elect) => {
                self.word("elect")?;
                self.order(&elect.order)
            }
        }
    }

    fn batch(&mut self, batch: &Option<BatchSyntax>) -> Result<(), AllocError>
        ensures { OnOk result
            (Prints (batch_texts (option_map batch_syntax_tree batch.now)) self.old self.new) }
    {
        match batch {
            None => Ok(()),
            Some(batch) => {
                self.word("while")?;
                self.condition(&batch.condition)?;
                self.word("limit")?;
                self.number(batch.limit)
            }
        }
    }

    fn handlers(&mut self, handlers: &[HandlerSyntax]) -> Result<(), AllocError>
        ensures { OnOk result
            (Prints (flat_map handler_texts (map handler_syntax_tree handlers.now)) self.old self.new) }
    {
        for handler in handlers {
            self.handler(handler)?;
        }
        Ok(())
    }

    fn handler(&mut self, handler: &HandlerSyntax) -> Result<(), AllocError>
        ensures { OnOk result
            (Prints (handler_texts (handler_syntax_tree handler.now)) self.old self.new) }
    {
        self.word("on")?;
        self.word(event_text(handler.event))?;
        self.word("{")?;
        for case in handler.cases.as_slice() {
            self.case(case)?;
        }
        self.word("}")
    }

    fn case(&mut self, case: &CaseSyntax) -> Result<(), AllocError>
        ensures { OnOk result (Prints (case_texts (case_syntax_tree case.now)) self.old self.new) }
    {
        self.word("when")?;
        self.condition(&case.guard)?;
        self.word(":")?;
        for set in case.sets.as_slice() {
            self.set(set)?;
        }
        self.word(put_text(case.put))
    }

    fn set(&mut self, set: &SetSyntax) -> Result<(), AllocError>
        ensures { OnOk result (Prints (set_texts set.now) self.old self.new) }
    {
        self.word("t")?;
        self.word(".")?;
        self.token(set.word.as_slice())?;
        self.word("=")?;
        self.expression(&set.value)?;
        self.word(",")
    }
}
