//! Laws of printed texts.

ghost use Rattle.policy_printer.specs.Printed.{IsReadAgain};

/// A syntax that the grammar has of some text, within the limits, it has of the printed text too. The two are the same
/// in everything: numbers of tokens are counted alike in both texts.
pub fn law_read_again()
    ensures { IsReadAgain }
{}
