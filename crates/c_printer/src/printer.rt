//! What is printed so far.

ghost use Rattle.std.specs.Prelude.{[], ◌∷◌, OnOk, decimal};
ghost use Rattle.c_printer.specs.Adds.{Prints};

use itoa::Buffer;
use std::alloc::AllocError;

/// The bytes so far. A call that finds no memory leaves a part of what it adds.
#[derive(Drop)]
pub(crate) struct Printer {
    pub(crate) bytes: Vec<u8>,
}

impl Printer {
    /// Bytes as they are.
    pub(crate) fn name(&mut self, text: &[u8]) -> Result<(), AllocError>
        ensures { OnOk result (Prints (text.now ∷ []) self.old self.new) }
    {
        self.bytes.extend_from_slice(text)?;
        Ok(())
    }

    /// Words and symbols as they are.
    pub(crate) fn word(&mut self, text: &str) -> Result<(), AllocError>
        ensures { OnOk result (Prints (text.now ∷ []) self.old self.new) }
    {
        self.name(text.as_bytes())
    }

    /// A number, in decimal and without leading zeros.
    pub(crate) fn number(&mut self, value: u64) -> Result<(), AllocError>
        ensures { OnOk result (Prints (decimal value ∷ []) self.old self.new) }
    {
        let mut buffer = Buffer::new();
        self.word(buffer.format(value))
    }
}
