//! Policies in a short spelling of their trees, which shows each default, each number and how operators group.

use policy_tree::{
    AttrList, Batch, Case, CaseList, Cmp, Cond, Expr, HandlerList, Key, Load, Order, PlaceRule,
    Policy, Put,
};
use std::alloc::AllocError;
use std::fmt::Write;

/// The whole policy but for its name and its attributes' names.
pub(crate) fn show_policy(text: &mut String, policy: &Policy) -> Result<(), AllocError> {
    show_front(text, policy)?;
    show_handlers(text, &policy.handlers)?;
    show_cond(text, &policy.filter)?;
    text.push_str("; ")?;
    show_order(text, &policy.choose)?;
    text.push_str("; ")?;
    show_order(text, &policy.steal)?;
    show_batch(text, &policy.batch)
}

/// Load, attributes, placement and election.
fn show_front(text: &mut String, policy: &Policy) -> Result<(), AllocError> {
    match policy.load {
        Load::Count => text.push_str("count")?,
        Load::Weight { lo, hi } => write!(text, "{lo}..{hi}")?,
    }
    show_attrs(text, " core", &policy.core_attrs)?;
    show_attrs(text, " thread", &policy.thread_attrs)?;
    text.push_str("; ")?;
    match &policy.place {
        PlaceRule::Here => text.push_str("here")?,
        PlaceRule::Least(value) => show_expr(text, value)?,
    }
    text.push_str("; ")?;
    show_order(text, &policy.elect)
}

/// Attributes with their starts and their ranges.
fn show_attrs(text: &mut String, kind: &str, attrs: &AttrList) -> Result<(), AllocError> {
    for attr in attrs.as_slice() {
        write!(text, "{kind} {} {}..{}", attr.start, attr.lo, attr.hi)?;
    }
    Ok(())
}

/// The cases of each event.
fn show_handlers(text: &mut String, handlers: &HandlerList) -> Result<(), AllocError> {
    show_cases(text, &handlers.on_enqueue)?;
    show_cases(text, &handlers.on_tick)?;
    show_cases(text, &handlers.on_yield)?;
    show_cases(text, &handlers.on_block)?;
    text.push_str("; ")
}

/// The cases of an event.
fn show_cases(text: &mut String, cases: &CaseList) -> Result<(), AllocError> {
    text.push_str(";")?;
    for case in cases.as_slice() {
        show_case(text, case)?;
    }
    Ok(())
}

/// A case: its guard, its assignments, and where it puts the thread.
fn show_case(text: &mut String, case: &Case) -> Result<(), AllocError> {
    text.push_str(" ")?;
    show_cond(text, &case.guard)?;
    for set in case.sets.as_slice() {
        write!(text, " {} = ", set.attr)?;
        show_expr(text, &set.expr)?;
    }
    text.push_str(match case.put {
        Put::Queue => " queue",
        Put::Keep => " keep",
        Put::Block => " block",
    })
}

/// An order, key by key.
fn show_order(text: &mut String, order: &Order) -> Result<(), AllocError> {
    if order.is_empty() {
        text.push_str("first")?;
    }
    for key in order.as_slice() {
        show_key(text, key)?;
    }
    Ok(())
}

/// A key: what is the least or the greatest first, or the condition that is preferred.
fn show_key(text: &mut String, key: &Key) -> Result<(), AllocError> {
    match key {
        Key::Least(expr) => {
            text.push_str("min ")?;
            show_expr(text, expr)
        }
        Key::Greatest(expr) => {
            text.push_str("max ")?;
            show_expr(text, expr)
        }
        Key::Prefer(cond) => {
            text.push_str("prefer ")?;
            show_cond(text, cond)
        }
    }
}

/// The batch, if there is one: when it goes on, and its limit.
fn show_batch(text: &mut String, batch: &Option<Batch>) -> Result<(), AllocError> {
    let Some(batch) = batch else {
        return Ok(());
    };
    text.push_str("; while ")?;
    show_cond(text, &batch.cond)?;
    write!(text, " limit {}", batch.limit)
}

/// A condition, with parentheses round each conjunction and each disjunction.
pub(crate) fn show_cond(text: &mut String, cond: &Cond) -> Result<(), AllocError> {
    match cond {
        Cond::Always => text.push_str("always"),
        Cond::Not(inner) => {
            text.push_str("not ")?;
            show_cond(text, inner)
        }
        Cond::And(left, right) => {
            text.push_str("(")?;
            show_cond(text, left)?;
            text.push_str(" and ")?;
            show_cond(text, right)?;
            text.push_str(")")
        }
        Cond::Or(left, right) => {
            text.push_str("(")?;
            show_cond(text, left)?;
            text.push_str(" or ")?;
            show_cond(text, right)?;
            text.push_str(")")
        }
        Cond::Test(compare, left, right) => {
            show_expr(text, left)?;
            text.push_str(sign_of(*compare))?;
            show_expr(text, right)
        }
    }
}

/// The sign of a comparison.
fn sign_of(compare: Cmp) -> &'static str {
    match compare {
        Cmp::Eq => " == ",
        Cmp::Ne => " != ",
        Cmp::Lt => " < ",
        Cmp::Le => " <= ",
        Cmp::Gt => " > ",
        Cmp::Ge => " >= ",
    }
}

/// An expression, with parentheses round each operation and variables by their numbers.
fn show_expr(text: &mut String, expr: &Expr) -> Result<(), AllocError> {
    match expr {
        Expr::Num(number) => write!(text, "{number}"),
        Expr::Var(number) => write!(text, "v{number}"),
        Expr::Neg(inner) => {
            text.push_str("-")?;
            show_expr(text, inner)
        }
        Expr::Add(left, right) => {
            text.push_str("(")?;
            show_expr(text, left)?;
            text.push_str(" + ")?;
            show_expr(text, right)?;
            text.push_str(")")
        }
        Expr::Sub(left, right) => {
            text.push_str("(")?;
            show_expr(text, left)?;
            text.push_str(" - ")?;
            show_expr(text, right)?;
            text.push_str(")")
        }
        Expr::Mul(left, right) => {
            text.push_str("(")?;
            show_expr(text, left)?;
            text.push_str(" * ")?;
            show_expr(text, right)?;
            text.push_str(")")
        }
    }
}
