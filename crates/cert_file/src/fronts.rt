//! The lines that a system announces, cut off before they are read. Nothing is made of their number.

ghost use Rattle.cert_file.specs.Reading.{IsFront};

use text_forms::cut;

/// The front of a text, and what stands behind it.
#[derive(Drop)]
pub(crate) struct Front<'a> {
    /// So many lines as were asked for, each with its line feed, or the whole text where it has fewer.
    pub(crate) bytes: &'a [u8],
    pub(crate) behind: &'a [u8],
    /// How many lines are missing.
    pub(crate) missing: u64,
}

/// The first lines of the text, so many.
pub(crate) fn front_of(text: &[u8], lines: u64) -> Front<'_>
    ensures { IsFront text.now lines result.bytes.now result.behind.now result.missing }
{
    let mut behind = text;
    let mut missing = lines;
    while missing > 0 {
        behind = match cut(behind, b'\n') {
            Some((_line, rest)) => rest,
            None => {
                let (bytes, behind) = text.split_at(text.len());
                return Front {
                    bytes,
                    behind,
                    missing,
                };
            }
        };
        missing -= 1;
    }
    let (bytes, behind) = text.split_at(text.len() - behind.len());
    Front {
        bytes,
        behind,
        missing,
    }
}
