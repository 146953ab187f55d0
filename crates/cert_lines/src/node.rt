//! Reads the line of a node.

ghost use Rattle.std.specs.Prelude.{◌≡◌, ◌≢◌, ℕ, ℤ, ◌^◌, ◌<◌, length, IfOk, MatchOption};
ghost use Rattle.linear_cert.specs.declared.cert.Mult.{Mult};
ghost use Rattle.cert_lines.specs.Nodes.{AreMults, AreNoMults, BeginsWithMult, BeginsWithNoMult, IsLineOf, IsNoLine};
ghost use Rattle.cert_lines.specs.Nodes.{word_of};
ghost use Rattle.cert_lines.specs.Text.{IsMult, IsSplit, split_line};

use crate::numbers::{narrow_in, signed_in, unsigned_in};
use linear_cert::{Mult, MultList};
use lists::Items;
use std::alloc::{AllocError, Global};
use text_forms::{cut, front};

/// A node without its parts.
#[derive(Drop)]
pub enum Node {
    /// A leaf with its multipliers.
    Leaf(MultList),
    /// A split.
    Split {
        /// The number of the variable.
        var: u32,
        /// The greatest value of the left part.
        at: i64,
    },
}

/// The node of which the line is, without its line feed.
pub fn node_in(alloc: Global, line: &[u8]) -> Result<Option<Node>, AllocError>
    requires { length line.now < 2 ^ 32 }
    ensures { IfOk result (λ found. MatchOption found
        (IsNoLine line.now)
        (λ node. IsLineOf node line.now)) }
{
    match line.strip_prefix(b"leaf".as_slice()) {
        Some(rest) => match mults_in(alloc, rest)? {
            Some(mults) => Ok(Some(Node::Leaf(mults))),
            None => Ok(None),
        },
        None => match split_in(line) {
            Some((var, at)) => Ok(Some(Node::Split { var, at })),
            None => Ok(None),
        },
    }
}

// The variable and the value of a split's line.
fn split_in(line: &[u8]) -> Option<(u32, i64)>
    ensures { MatchOption result
        ((variable : ℕ) (at : ℤ) → IsSplit variable at → line.now ≢ split_line variable at)
        (λ found. IsSplit found.0 found.1 × (line.now ≡ split_line found.0 found.1)) }
{
    let rest = line.strip_prefix(b"split ".as_slice())?;
    let (variable, at) = cut(rest, b' ')?;
    let variable = narrow_in(variable)?;
    Some((variable, signed_in(at)?))
}

// The multipliers of a leaf's line, what stands behind its first word.
fn mults_in(alloc: Global, text: &[u8]) -> Result<Option<MultList>, AllocError>
    requires { length text.now < 2 ^ 32 }
    ensures { IfOk result (λ found. MatchOption found
        (AreNoMults text.now)
        (λ mults. AreMults text.now mults)) }
{
    let mut mults = Vec::new(alloc);
    let mut rest = text;
    while !rest.is_empty() {
        let (mult, behind) = match mult_at(rest) {
            Some(found) => found,
            None => return Ok(None),
        };
        mults.push(mult)?;
        rest = behind;
    }
    Ok(Some(Items::from_vec(mults)))
}

// The multiplier that the text begins with, and what stands behind it.
fn mult_at(text: &[u8]) -> Option<(Mult, &[u8])>
    ensures { MatchOption result
        (BeginsWithNoMult text.now)
        (λ found. BeginsWithMult text.now found.0 found.1.now) }
{
    let words = text.strip_prefix(b" ".as_slice())?;
    let (word, behind) = front(words, b' ');
    let mult = mult_in(word)?;
    Some((mult, behind))
}

// The multiplier that the word spells.
fn mult_in(word: &[u8]) -> Option<Mult>
    ensures { MatchOption result
        ((mult : Mult) → IsMult mult → word.now ≢ word_of mult)
        (λ mult. IsMult mult × (word.now ≡ word_of mult)) }
{
    let (row, by) = cut(word, b':')?;
    let row = narrow_in(row)?;
    let by = unsigned_in(by)?;
    Some(Mult { row, by })
}
