//! Prints expressions.

ghost use Rattle.std.specs.Prelude.{◌≡◌, ◌≤◌, [], ◌∷◌, OnOk, slice_get};
ghost use Rattle.policy_tree.specs.declared.variables.TheConstants.{SELF_ATTRIBUTES};
ghost use Rattle.policy_tree.specs.Meaning.{meaning_of};
ghost use Rattle.policy_tree.specs.Trees.{expr_tree};
ghost use Rattle.c_printer.specs.Adds.{Prints};
ghost use Rattle.c_printer.specs.ExpressionTexts.{attribute_name, attribute_texts, enclosed, expr_texts, literal_texts};
ghost use Rattle.c_printer.specs.ExpressionTexts.{named_texts, opens_expr, opens_product, opens_sum, plain_texts};
ghost use Rattle.c_printer.specs.ExpressionTexts.{signed_texts, sum_texts, value_texts, variable_texts};

use crate::printer::Printer;
use crate::widths::width_of;
use crate::words::{
    Standing, View, Width, begin_text, cast_text, closing_text, end_text, minus_text, opening_text,
    other_word, suffix_text, thread_word,
};
use policy_tree::variables::{
    FRESH, OTHER_ATTRIBUTES, OTHER_LOAD, OTHER_NR, SELF_ATTRIBUTES, SELF_LOAD, SELF_NR,
    THREAD_ATTRIBUTES, WEIGHT,
};
use policy_tree::{AttrList, Expr, Policy};
use std::alloc::AllocError;

impl Printer {
    /// A whole expression, in the type that its ranges show to be wide enough.
    pub(crate) fn value(
        &mut self,
        policy: &Policy,
        view: View,
        expr: &Expr,
    ) -> Result<(), AllocError>
        ensures { OnOk result
            (Prints (value_texts (meaning_of policy.now) view (expr_tree expr.now)) self.old self.new) }
    {
        let width = width_of(policy, expr);
        self.word(begin_text(width))?;
        self.expression(policy, view, width, expr)?;
        self.word(end_text(width))
    }

    /// An expression, each operand turned into the type of the whole.
    #[cycle(parts)]
    fn expression(
        &mut self,
        policy: &Policy,
        view: View,
        width: Width,
        expr: &Expr,
    ) -> Result<(), AllocError>
        ensures { OnOk result
            (Prints (expr_texts (meaning_of policy.now) view width (expr_tree expr.now)) self.old self.new) }
    {
        match expr {
            Expr::Num(value) => self.literal(width, *value),
            Expr::Var(at) => {
                self.word(cast_text(width))?;
                self.variable(policy, view, *at)
            }
            Expr::Neg(inner) => {
                self.word("-")?;
                self.operand(policy, view, width, Standing::Tight, inner)
            }
            Expr::Add(left, right) => self.sum(policy, view, width, left, " + ", right),
            Expr::Sub(left, right) => self.sum(policy, view, width, left, " - ", right),
            Expr::Mul(left, right) => {
                self.operand(policy, view, width, Standing::Term, left)?;
                self.word(" * ")?;
                self.operand(policy, view, width, Standing::Tight, right)
            }
        }
    }

    /// A sum or a difference, by its sign.
    #[cycle(parts)]
    fn sum(
        &mut self,
        policy: &Policy,
        view: View,
        width: Width,
        left: &Expr,
        sign: &str,
        right: &Expr,
    ) -> Result<(), AllocError>
        ensures { OnOk result (Prints
            (sum_texts (meaning_of policy.now) view width (expr_tree left.now) sign.now (expr_tree right.now))
            self.old self.new) }
    {
        self.operand(policy, view, width, Standing::Alone, left)?;
        self.word(sign)?;
        self.operand(policy, view, width, Standing::Term, right)
    }

    /// An operand, in parentheses where those are needed.
    #[cycle(parts)]
    fn operand(
        &mut self,
        policy: &Policy,
        view: View,
        width: Width,
        standing: Standing,
        expr: &Expr,
    ) -> Result<(), AllocError>
        ensures { OnOk result (Prints
            (enclosed (opens_expr standing (expr_tree expr.now))
            (expr_texts (meaning_of policy.now) view width (expr_tree expr.now)))
            self.old self.new) }
    {
        let opens = opens_expr(standing, expr);
        self.word(opening_text(opens))?;
        self.expression(policy, view, width, expr)?;
        self.word(closing_text(opens))
    }

    /// A number in a type.
    fn literal(&mut self, width: Width, value: i64) -> Result<(), AllocError>
        ensures { OnOk result (Prints (literal_texts width value) self.old self.new) }
    {
        let negative = value < 0;
        self.word(cast_text(width))?;
        self.word(opening_text(negative))?;
        self.word(minus_text(negative))?;
        self.number(value.unsigned_abs())?;
        self.word(suffix_text(width))?;
        self.word(closing_text(negative))
    }

    /// A number that is no part of an expression.
    pub(crate) fn plain(&mut self, value: i32) -> Result<(), AllocError>
        ensures { OnOk result (Prints (plain_texts value) self.old self.new) }
    {
        self.literal(Width::Small, i64::from(value))
    }

    /// A number in a comment.
    pub(crate) fn signed(&mut self, value: i32) -> Result<(), AllocError>
        ensures { OnOk result (Prints (signed_texts value) self.old self.new) }
    {
        self.word(minus_text(value < 0))?;
        self.number(u64::from(value.unsigned_abs()))
    }

    /// A variable by its number.
    fn variable(&mut self, policy: &Policy, view: View, at: u32) -> Result<(), AllocError>
        ensures { OnOk result (Prints (variable_texts (meaning_of policy.now) view at) self.old self.new) }
    {
        if at == SELF_NR {
            self.field("self", "->nr")
        } else if at == SELF_LOAD {
            self.field("self", "->load")
        } else if at == OTHER_NR {
            self.field(other_word(view), "->nr")
        } else if at == OTHER_LOAD {
            self.field(other_word(view), "->load")
        } else if at == WEIGHT {
            self.field(thread_word(view), "->weight")
        } else if at == FRESH {
            self.word("(int64_t)fresh")
        } else {
            self.attribute(policy, view, at)
        }
    }

    /// A field of a core or of a thread.
    fn field(&mut self, owner: &str, field: &str) -> Result<(), AllocError>
        ensures { OnOk result (Prints (owner.now ∷ field.now ∷ []) self.old self.new) }
    {
        self.word(owner)?;
        self.word(field)
    }

    /// An attribute of either core or of the thread, by the variable's number.
    fn attribute(&mut self, policy: &Policy, view: View, at: u32) -> Result<(), AllocError>
        requires { SELF_ATTRIBUTES ≤ at }
        ensures { OnOk result (Prints (attribute_texts (meaning_of policy.now) view at) self.old self.new) }
    {
        if at < OTHER_ATTRIBUTES {
            self.named("self", &policy.core_attrs, at - SELF_ATTRIBUTES)
        } else if at < THREAD_ATTRIBUTES {
            self.named(other_word(view), &policy.core_attrs, at - OTHER_ATTRIBUTES)
        } else {
            self.named(
                thread_word(view),
                &policy.thread_attrs,
                at - THREAD_ATTRIBUTES,
            )
        }
    }

    /// An attribute of that owner.
    fn named(&mut self, owner: &str, attrs: &AttrList, at: u32) -> Result<(), AllocError>
        ensures { OnOk result (Prints (named_texts owner.now (slice_get attrs.now at)) self.old self.new) }
    {
        self.word(owner)?;
        self.word("->attr_")?;
        self.name(attribute_name(attrs, at))
    }
}

/// The name of an attribute, and none where it isn't declared.
pub(crate) fn attribute_name(attrs: &AttrList, at: u32) -> &[u8]
    ensures { result.now ≡ attribute_name (slice_get attrs.now at) }
{
    match attrs.as_slice().get(at as usize) {
        Some(attr) => attr.name.as_slice(),
        None => b"".as_slice(),
    }
}

/// Whether parentheses stand round the expression there.
fn opens_expr(standing: Standing, expr: &Expr) -> bool
    ensures { result ≡ opens_expr standing (expr_tree expr.now) }
{
    match expr {
        Expr::Num(_) | Expr::Var(_) => false,
        Expr::Neg(_) | Expr::Add(_, _) | Expr::Sub(_, _) => opens_sum(standing),
        Expr::Mul(_, _) => opens_product(standing),
    }
}

fn opens_sum(standing: Standing) -> bool
    ensures { result ≡ opens_sum standing }
{
    match standing {
        Standing::Alone => false,
        Standing::Term | Standing::Tight => true,
    }
}

fn opens_product(standing: Standing) -> bool
    ensures { result ≡ opens_product standing }
{
    match standing {
        Standing::Alone | Standing::Term => false,
        Standing::Tight => true,
    }
}
