//! Which expression a syntax is.

ghost use Rattle.std.specs.Prelude.{◌≡◌, IfOk, IfErr, MatchOption, true, false, [], ⊤};
ghost use Rattle.policy_tree.specs.Trees.{ExprTree, expr_tree, times};
ghost use Rattle.policy_types.specs.Expressions.{big_faults, expr_faults, expr_meaning, factor_faults, factor_meaning};
ghost use Rattle.policy_types.specs.Expressions.{feature_faults, joined, operand_meaning, product_faults, sum_with};
ghost use Rattle.policy_types.specs.Expressions.{term_faults, term_meaning};
ghost use Rattle.policy_types.specs.Faults.{IsFirst};
ghost use Rattle.policy_types.specs.Forms.{has_form, has_small_form};
ghost use Rattle.policy_types.specs.Products.{IsForm, IsKnown, IsProduct};
ghost use Rattle.policy_types.specs.References.{feature_of, reference_of};

use crate::fault::TypeFault;
use crate::products::Product;
use crate::scope::Scope;
use crate::sites::{Site, allows, variable_of};
use crate::sums::Form;
use policy_syntax::{AddedSyntax, ExprSyntax, FactorSyntax, OperandSyntax, Owner, TermSyntax};
use policy_tree::{Expr, Name};
use sched_base::MAX_COEFFICIENT;
use std::alloc::{AllocError, Global};

impl Scope<'_> {
    /// The linear form of a factor, whatever rules it breaks.
    fn factor_product(&self, factor: &FactorSyntax) -> Product
        ensures is { IsProduct result (factor_meaning self.now factor.now) }
        ensures known { IsKnown result.variable }
    {
        let mut product = self.operand_product(&factor.operand);
        for _sign in 0..factor.signs {
            product = product.negated();
        }
        product
    }

    /// The linear form of a factor without its signs.
    fn operand_product(&self, operand: &OperandSyntax) -> Product
        ensures is { IsProduct result (operand_meaning self.now operand.now) }
        ensures known { IsKnown result.variable }
    {
        match operand {
            OperandSyntax::Number(value) => Product::of_number(*value),
            OperandSyntax::Reference { owner, word } => {
                Product::of_variable(self.reference(*owner, word))
            }
        }
    }

    /// The linear form of a term, whatever other rules it breaks, and none where it has none.
    fn term_product(&self, term: &TermSyntax) -> Option<Product>
        ensures is { MatchOption result (has_form (term_meaning self.now term.now) ≡ false)
            (λ p. IsProduct p (term_meaning self.now term.now)) }
        ensures known { MatchOption result ⊤ (λ p. IsKnown p.variable) }
    {
        let mut product = self.factor_product(&term.first);
        let rest = term.rest.as_slice();
        for times in rest {
            product = product.times(self.factor_product(&times.factor))?;
        }
        Some(product)
    }

    /// The feature that stands behind a dot, where it may stand there.
    fn reference_at(&self, site: Site, at: u32, owner: Owner, word: &Name) -> Result<u32, TypeFault>
        ensures value { IfOk result (λ v. v ≡ reference_of self.now owner word.now) }
        ensures sound { IfOk result (λ v.
            feature_faults site at owner (feature_of self.now owner word.now) ≡ []) }
        ensures fault { IfErr result
            (IsFirst (feature_faults site at owner (feature_of self.now owner word.now))) }
    {
        match self.feature(owner, word) {
            None => Err(TypeFault::Unknown(at)),
            Some(feature) if allows(site, owner, feature) => Ok(variable_of(owner, feature)),
            Some(_) => Err(TypeFault::NotHere(at)),
        }
    }

    /// A factor without its signs. Where the number is too big, so is each sign before it.
    fn operand(&self, site: Site, factor: &FactorSyntax) -> Result<Expr, TypeFault>
        ensures tree { IfOk result (λ e.
            expr_tree e ≡ operand_meaning self.now factor.now.operand) }
        ensures small { IfOk result (λ e.
            has_small_form (operand_meaning self.now factor.now.operand) ≡ true) }
        ensures sound { IfOk result (λ e. factor_faults self.now site factor.now ≡ []) }
        ensures fault { IfErr result (IsFirst (factor_faults self.now site factor.now)) }
    {
        let first = factor.at;
        match &factor.operand {
            OperandSyntax::Number(value) => {
                if *value <= MAX_COEFFICIENT as u64 {
                    Ok(Expr::Num(*value as i64))
                } else {
                    Err(TypeFault::Big(first))
                }
            }
            OperandSyntax::Reference { owner, word } => {
                let at = first.saturating_add(factor.signs).saturating_add(2);
                Ok(Expr::Var(self.reference_at(site, at, *owner, word)?))
            }
        }
    }

    /// A factor.
    fn factor(&self, alloc: Global, site: Site, factor: &FactorSyntax) -> Result<Expr, TypeFault>
        ensures tree { IfOk result (λ e. expr_tree e ≡ factor_meaning self.now factor.now) }
        ensures small { IfOk result (λ e.
            has_small_form (factor_meaning self.now factor.now) ≡ true) }
        ensures sound { IfOk result (λ e. factor_faults self.now site factor.now ≡ []) }
        ensures fault { IfErr result (IsFirst (factor_faults self.now site factor.now)) }
    {
        let mut expr = self.operand(site, factor)?;
        for _sign in 0..factor.signs {
            expr = Expr::Neg(Box::new(alloc, expr)?);
        }
        Ok(expr)
    }

    /// A term, and its linear form.
    fn term(
        &self,
        alloc: Global,
        site: Site,
        term: &TermSyntax,
    ) -> Result<(Expr, Product), TypeFault>
        ensures tree { IfOk result (λ x. expr_tree x.0 ≡ term_meaning self.now term.now) }
        ensures form { IfOk result (λ x. IsProduct x.1 (term_meaning self.now term.now)) }
        ensures known { IfOk result (λ x. IsKnown x.1.variable) }
        ensures small { IfOk result (λ x. has_small_form (term_meaning self.now term.now) ≡ true) }
        ensures sound { IfOk result (λ x. term_faults self.now site term.now ≡ []) }
        ensures fault { IfErr result (IsFirst (term_faults self.now site term.now)) }
    {
        let mut left = self.factor(alloc, site, &term.first)?;
        let mut product = self.factor_product(&term.first);
        let rest = term.rest.as_slice();
        for times in rest {
            product = next_product(product, self.factor_product(&times.factor), times.at)?;
            let right = self.factor(alloc, site, &times.factor)?;
            left = Expr::Mul(Box::new(alloc, left)?, Box::new(alloc, right)?);
        }
        Ok((left, product))
    }

    /// An expression.
    pub(crate) fn expr(
        &self,
        alloc: Global,
        site: Site,
        expr: &ExprSyntax,
    ) -> Result<Expr, TypeFault>
        ensures tree { IfOk result (λ e. expr_tree e ≡ expr_meaning self.now expr.now) }
        ensures sound { IfOk result (λ e. expr_faults self.now site expr.now ≡ []) }
        ensures fault { IfErr result (IsFirst (expr_faults self.now site expr.now)) }
    {
        let (mut left, product) = self.term(alloc, site, &expr.first)?;
        let mut form = match Form::of_product(product) {
            Some(form) => form,
            None => unreachable!(),
        };
        let rest = expr.rest.as_slice();
        for added in rest {
            form = self.next_form(form, added)?;
            let (right, _product) = self.term(alloc, site, &added.term)?;
            left = joined(alloc, added.minus, left, right)?;
        }
        Ok(left)
    }

    /// The linear form of a sum with one term more, whatever rules the term breaks. Where the term
    /// has no linear form, the sum has none.
    fn next_form(&self, form: Form, added: &AddedSyntax) -> Result<Form, TypeFault>
        ensures is { (l : ExprTree) → IsForm form l →
            has_form (term_meaning self.now added.now.term) ≡ true →
            IfOk result (λ f. IsForm f (sum_with self.now l added.now)) }
        ensures sound { (l : ExprTree) → IsForm form l →
            IfOk result (λ f. big_faults added.now.at (sum_with self.now l added.now) ≡ []) }
        ensures fault { (l : ExprTree) → IsForm form l →
            IfErr result (IsFirst (big_faults added.now.at (sum_with self.now l added.now))) }
    {
        match self.term_product(&added.term) {
            Some(product) => match form.joined(added.minus, product) {
                Some(sum) => Ok(sum),
                None => Err(TypeFault::Big(added.at)),
            },
            None => Ok(form),
        }
    }
}

/// The linear form of a term with one factor more, whose sign is that token.
fn next_product(left: Product, right: Product, at: u32) -> Result<Product, TypeFault>
    requires left { IsKnown left.variable }
    requires right { IsKnown right.variable }
    ensures known { IfOk result (λ p. IsKnown p.variable) }
    ensures is { (l r : ExprTree) → IsProduct left l → IsProduct right r →
        IfOk result (λ p. IsProduct p (times l r)) }
    ensures small { (l r : ExprTree) → IsProduct left l → IsProduct right r →
        IfOk result (λ p. has_small_form (times l r) ≡ true) }
    ensures sound { (l r : ExprTree) → IsProduct left l → IsProduct right r →
        IfOk result (λ p. product_faults at l r ≡ []) }
    ensures fault { (l r : ExprTree) → IsProduct left l → IsProduct right r →
        IfErr result (IsFirst (product_faults at l r)) }
{
    match left.times(right) {
        None => Err(TypeFault::NotLinear(at)),
        Some(product) if product.is_small() => Ok(product),
        Some(_) => Err(TypeFault::Big(at)),
    }
}

/// The difference or the sum.
fn joined(alloc: Global, minus: bool, left: Expr, right: Expr) -> Result<Expr, AllocError>
    ensures { IfOk result (λ e. expr_tree e ≡ joined minus (expr_tree left) (expr_tree right)) }
{
    let left = Box::new(alloc, left)?;
    let right = Box::new(alloc, right)?;
    if minus {
        Ok(Expr::Sub(left, right))
    } else {
        Ok(Expr::Add(left, right))
    }
}
