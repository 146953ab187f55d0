//! The text of a syntax.

ghost use Rattle.std.specs.Prelude.{◌≡◌, ℕ, List, IfOk};
ghost use Rattle.policy_syntax.specs.SyntaxTrees.{syntax_tree};
ghost use Rattle.policy_printer.specs.Printed.{IsTextOf, printed};

use crate::fault::PrintFault;
use crate::printer::Printer;
use policy_syntax::Syntax;
use std::alloc::Global;

/// The tokens of the syntax, numbers without leading zeros, with one space between each two and a line feed at the end.
pub fn print(alloc: Global, syntax: &Syntax) -> Result<Vec<u8>, PrintFault>
    ensures text { IfOk result (λ v. v.items ≡ printed (syntax_tree syntax.now)) }

    // Where some text has this syntax, what is printed is a text of it too.
    ensures again { (text : List ℕ) → IsTextOf text (syntax_tree syntax.now) →
        IfOk result (λ v. IsTextOf v.items (syntax_tree syntax.now)) }
{
    let bytes = Vec::from_slice(alloc, "policy".as_bytes())?;
    let mut printer = Printer { bytes };
    printer.token(syntax.name.as_slice())?;
    printer.head(syntax)?;
    printer.phases(syntax)?;
    let Printer { mut bytes } = printer;
    bytes.push(b'\n')?;
    Ok(bytes)
}
