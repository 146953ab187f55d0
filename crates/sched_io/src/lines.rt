//! A line of output, built up before it is put.

ghost use Rattle.std.specs.Prelude.{◌≡◌, ◌+◌, ◌≤◌, ◌++◌, [], decimal, length};

use itoa::Buffer;
use std::marker::Model;

/// How many bytes a line has room for.
pub const LINE_ROOM: usize = 512;

/// How many bytes the longest number takes.
pub const NUMBER_ROOM: usize = 20;

/// A line that is being built. A contract sees the list of its bytes.
#[derive(Drop)]
pub struct Line {
    bytes: [u8; LINE_ROOM],
    len: usize,
}

impl Model for Line {
    ghost use Rattle.std.specs.Prelude.{List, ℕ, ◌≤◌, take};
    ghost use Rattle.sched_io.specs.declared.lines.TheConstants.{LINE_ROOM};

    ghost Value = { List ℕ };

    ghost view = { λ line. take line.len line.bytes };

    ghost invariant = { λ line. line.len ≤ LINE_ROOM };
}

impl Line {
    /// The empty line.
    pub fn new() -> Line
        ensures { result ≡ [] }
    {
        Line {
            bytes: [0; LINE_ROOM],
            len: 0,
        }
    }

    /// Adds a piece at the end.
    pub fn add(&mut self, piece: &[u8])
        requires { length self.old + length piece.now ≤ LINE_ROOM }
        ensures { self.new ≡ self.old ++ piece.now }
    {
        let end = self.len + piece.len();
        self.bytes[self.len..end].copy_from_slice(piece);
        self.len = end;
    }

    /// Adds a number in decimal, without leading zeros.
    pub fn add_number(&mut self, number: u64)
        requires { length self.old + NUMBER_ROOM ≤ LINE_ROOM }
        ensures { self.new ≡ self.old ++ decimal number }
    {
        let mut buffer = Buffer::new();
        self.add(buffer.format(number).as_bytes());
    }

    /// The bytes of the line.
    pub fn as_bytes(&self) -> &[u8]
        ensures { result.now ≡ self.now }
    {
        &self.bytes[..self.len]
    }
}
