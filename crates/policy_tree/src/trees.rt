//! Expressions and conditions over the numbered variables of a policy.

/// An expression over whole numbers. Its value is computed without saturation.
#[derive(Drop)]
pub enum Expr {
    /// A number as it stands in the text.
    Num(i64),
    /// A variable by its number, from 0 to 29.
    Var(u32),
    /// The negation.
    Neg(Box<Expr>),
    /// The sum.
    Add(Box<Expr>, Box<Expr>),
    /// The difference, the right side taken from the left.
    Sub(Box<Expr>, Box<Expr>),
    /// The product.
    Mul(Box<Expr>, Box<Expr>),
}

/// How two values are compared.
#[derive(Clone, Copy, PartialEq, Eq)]
pub enum Cmp {
    /// `==`
    Eq,
    /// `!=`
    Ne,
    /// `<`
    Lt,
    /// `<=`
    Le,
    /// `>`
    Gt,
    /// `>=`
    Ge,
}

/// A condition. Chains of `And` and of `Or` lean to the left and may be thousands long.
#[derive(Drop)]
pub enum Cond {
    /// It holds always.
    Always,
    /// It holds where the other doesn't.
    Not(Box<Cond>),
    /// It holds where both do.
    And(Box<Cond>, Box<Cond>),
    /// It holds where either does.
    Or(Box<Cond>, Box<Cond>),
    /// It holds where the comparison of the two values does.
    Test(Cmp, Expr, Expr),
}
