//! What is printed so far.

ghost use Rattle.std.specs.Prelude.{◌≡◌, ◌++◌, [], ◌∷◌, OnOk, decimal};
ghost use Rattle.std.specs.Fmt.{signed_decimal};
ghost use Rattle.trace_printer.specs.Adds.{Prints};

use itoa::Buffer;
use std::alloc::AllocError;

/// The bytes so far. A call that finds no memory leaves a part of what it adds.
#[derive(Drop)]
pub(crate) struct Text {
    pub(crate) bytes: Vec<u8>,
}

impl Text {
    /// The first word of a line.
    pub(crate) fn first(&mut self, word: &[u8]) -> Result<(), AllocError>
        ensures { OnOk result (self.new.bytes.items ≡ self.old.bytes.items ++ word.now) }
    {
        self.bytes.extend_from_slice(word)?;
        Ok(())
    }

    /// A word, with a space before it.
    pub(crate) fn word(&mut self, word: &[u8]) -> Result<(), AllocError>
        ensures { OnOk result (Prints (word.now ∷ []) self.old self.new) }
    {
        self.bytes.push(b' ')?;
        self.bytes.extend_from_slice(word)?;
        Ok(())
    }

    /// A number, in decimal and without leading zeros.
    pub(crate) fn number(&mut self, value: u32) -> Result<(), AllocError>
        ensures { OnOk result (Prints (decimal value ∷ []) self.old self.new) }
    {
        let mut buffer = Buffer::new();
        self.word(buffer.format(value).as_bytes())
    }

    /// A number that may have a sign.
    pub(crate) fn signed(&mut self, value: i32) -> Result<(), AllocError>
        ensures { OnOk result (Prints (signed_decimal value ∷ []) self.old self.new) }
    {
        let mut buffer = Buffer::new();
        self.word(buffer.format(value).as_bytes())
    }

    /// The end of a line.
    pub(crate) fn feed(&mut self) -> Result<(), AllocError>
        ensures { OnOk result (self.new.bytes.items ≡ self.old.bytes.items ++ 10 ∷ []) }
    {
        self.bytes.push(b'\n')?;
        Ok(())
    }
}
