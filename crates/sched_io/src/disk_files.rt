//! The real files. They tell nothing of what they hold, and no proof speaks of what the system
//! does: how a file that was opened is read is proved, and failures are counted.

ghost use Rattle.std.specs.Prelude.{◌≡◌, ◌↔◌, ◌<◌, ◌≤◌, IfErr, IfOk, IfSome, IsErrOf, IsOk, None, length};
ghost use Rattle.std.specs.Prelude.{vec_len};
ghost use Rattle.std.specs.IoError.{error_kind};
ghost use Rattle.sched_io.specs.Told.{untold};

use crate::faults::LoadFault;
use crate::sources::Files;
use std::alloc::Global;
use std::io::{ErrorKind, Read};
use std::rt::Files as SystemFiles;
use std::{fs, io};

/// The files of the system.
#[derive(Drop)]
pub struct DiskFiles<'a, R> {
    rt: &'a R,
    faults: u64,
}

impl<'a, R> DiskFiles<'a, R> {
    ghost use Rattle.sched_io.specs.Adapters.{disk_faults};

    /// The files that this runtime reaches.
    pub fn new(rt: &'a R) -> DiskFiles<'a, R>
        ensures faults { disk_faults result ≡ 0 }
    {
        DiskFiles { rt, faults: 0 }
    }
}

/// All bytes that the reader has left, where they are at most `limit`. No more than one byte past the limit is read.
pub fn load_from<S: Read + Drop>(alloc: Global, reader: S, limit: u64) -> Result<Vec<u8>, LoadFault>
    ensures bytes { IfOk result (λ bytes. IfSome (S.remaining reader) (λ left. bytes.items ≡ left)) }
    ensures within { IfOk result (λ bytes. vec_len bytes ≤ limit) }
    ensures too_long { IsErrOf result LoadFault.TooLong →
        IfSome (S.remaining reader) (λ left. limit < length left) }
{
    let mut bytes = Vec::new(alloc);
    let mut front = reader.take(limit.saturating_add(1));
    match front.read_to_end(&mut bytes) {
        Ok(_count) if bytes.len() as u64 <= limit => Ok(bytes),
        Ok(_count) => Err(LoadFault::TooLong),
        Err(error) => Err(fault_of(error.kind())),
    }
}

/// The fault that an error of the system is: want of memory where the error says so, and else a failure.
fn fault_of(kind: ErrorKind) -> LoadFault
    ensures never_long { result ≡ LoadFault.TooLong → ⊥ }
    ensures memory { (result ≡ LoadFault.Memory) ↔ (kind ≡ ErrorKind.OutOfMemory) }
{
    match kind {
        ErrorKind::OutOfMemory => LoadFault::Memory,
        _ => LoadFault::Failed,
    }
}

/// All bytes of what was opened, where they are at most `limit`. What couldn't be opened is a failure, or want of memory
/// where the error says so.
pub fn load_opened<S: Read + Drop>(
    alloc: Global,
    opened: io::Result<S>,
    limit: u64,
) -> Result<Vec<u8>, LoadFault>
    ensures opened { IsOk result → IsOk opened }
    ensures bytes { IfOk result (λ bytes. IfOk opened (λ reader.
        IfSome (S.remaining reader) (λ left. bytes.items ≡ left))) }
    ensures within { IfOk result (λ bytes. vec_len bytes ≤ limit) }
    ensures too_long { IsErrOf result LoadFault.TooLong → IsOk opened
        × IfOk opened (λ reader. IfSome (S.remaining reader) (λ left. limit < length left)) }
    ensures memory { IfErr opened (λ error.
        IsErrOf result LoadFault.Memory ↔ (error_kind error ≡ ErrorKind.OutOfMemory)) }
{
    match opened {
        Ok(reader) => load_from(alloc, reader, limit),
        Err(error) => Err(fault_of(error.kind())),
    }
}

/// The bytes of the file of that name, where they are at most `limit`.
fn load_file<R: SystemFiles>(
    rt: &R,
    alloc: Global,
    name: &str,
    limit: u64,
) -> Result<Vec<u8>, LoadFault>
    ensures { IfOk result (λ bytes. vec_len bytes ≤ limit) }
{
    load_opened(alloc, fs::open(rt, name), limit)
}

impl<R: SystemFiles> Files for DiskFiles<'_, R> {
    ghost told = { λ _ _. untold };

    ghost faults = { λ files. files.faults };

    ghost requested = { λ _. None };

    fn load(&mut self, alloc: Global, name: &str, limit: u64) -> Result<Vec<u8>, LoadFault> {
        let loaded = load_file(self.rt, alloc, name, limit);
        if matches!(&loaded, Err(LoadFault::Failed)) {
            self.faults = self.faults.saturating_add(1);
        }
        loaded
    }
}
