//! How the three numbers of a load word are put together, and taken apart.

ghost use Rattle.std.specs.Prelude.{◌≡◌, ◌^◌, ◌<◌, ◌≤◌};
ghost use Rattle.load_words.specs.Packed.{IsGivenBack, packed};

use sched_base::{MAX_ENTRIES, MAX_LOAD, MAX_THREADS, Pos};

/// The bits of a word that are its load. They are the lowest.
pub const LOAD_BITS: u32 = 30;

/// The bits of a word that are its number of threads. They stand above the load, and the version above them.
pub const NR_BITS: u32 = 10;

const _: () = prove!(MAX_LOAD < 1 << LOAD_BITS);

const _: () = prove!(MAX_THREADS < 1 << NR_BITS);

/// The lowest bit of the version.
const VERSION_AT: u32 = LOAD_BITS + NR_BITS;

/// What a load word says of its core.
#[derive(Clone, Copy, Debug, PartialEq, Eq)]
pub struct LoadWord {
    /// One past the position of the last entry that touched the core, and 0 before the first.
    pub version: Pos,
    /// The threads that were on the core then.
    pub nr: u32,
    /// The load that the core had then.
    pub load: u64,
}

/// The word that says these three. Its highest bit is free.
pub fn pack(version: Pos, nr: u32, load: u64) -> u64
    requires version { version ≤ MAX_ENTRIES }
    requires nr { nr ≤ MAX_THREADS }
    requires load { load ≤ MAX_LOAD }
    ensures sum { result ≡ packed version nr load }
    ensures free { result < 2 ^ 63 }
{
    (u64::from(version) << VERSION_AT) + (u64::from(nr) << LOAD_BITS) + load
}

/// What the word says.
///
/// Every word says something. One that `pack` made says what `pack` was given.
pub fn unpack(word: u64) -> LoadWord
    ensures whole { packed result.version result.nr result.load ≡ word }
    ensures back { IsGivenBack word result }
{
    LoadWord {
        version: (word >> VERSION_AT) as u32,
        nr: ((word >> LOAD_BITS) % (1 << NR_BITS)) as u32,
        load: word % (1 << LOAD_BITS),
    }
}
