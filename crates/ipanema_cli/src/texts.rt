//! The texts that commands load, and how long they may be.

ghost use Rattle.std.specs.Prelude.{◌≡◌};
ghost use Rattle.ipanema_cli.specs.Texts.{room_of, too_long_line};

use sched_base::{MAX_CERTIFICATE_BYTES, MAX_HISTORY_BYTES, MAX_POLICY_BYTES, MAX_TRACE_BYTES};

/// The kinds of texts that commands load.
#[derive(Clone, Copy)]
pub enum TextKind {
    /// A policy.
    Policy,
    /// A trace of jobs.
    Trace,
    /// A history.
    History,
    /// Certificates of a policy.
    Certificates,
}

/// The texts of a command's files. One of a kind that the command has no file of is empty.
#[derive(Drop)]
pub struct Texts {
    pub policy: Vec<u8>,
    pub trace: Vec<u8>,
    pub history: Vec<u8>,
    pub certificates: Vec<u8>,
}

impl TextKind {
    /// The most bytes of such a text.
    pub fn room(self) -> u64
        ensures { result ≡ room_of self }
    {
        match self {
            TextKind::Policy => MAX_POLICY_BYTES,
            TextKind::Trace => MAX_TRACE_BYTES,
            TextKind::History => MAX_HISTORY_BYTES,
            TextKind::Certificates => MAX_CERTIFICATE_BYTES,
        }
    }

    /// The line that says that a text is longer.
    pub fn too_long_line(self) -> &'static [u8]
        ensures { result.now ≡ too_long_line self }
    {
        match self {
            TextKind::Policy => b"too-long policy\n",
            TextKind::Trace => b"too-long trace\n",
            TextKind::History => b"too-long history\n",
            TextKind::Certificates => b"too-long certs\n",
        }
    }
}
