//! Files in memory.

ghost use Rattle.std.specs.Prelude.{◌≡◌, ℕ, ◌<◌, ◌≤◌, ◌⊎◌, List, [], ◌∷◌, Contains, IfOk, IsErrOf, MatchOption, None};
ghost use Rattle.std.specs.Prelude.{Some, length, map, min, ◌+◌, string_bytes, vec_len};
ghost use Rattle.sched_io.specs.Faults.{Rose};
ghost use Rattle.sched_io.specs.InMemory.{told_among};
ghost use Rattle.sched_io.specs.Loads.{AreRequested, load_request};
ghost use Rattle.sched_io.specs.MemoryFiles.{told_by, faults_of, failing_of, loads_of, requested_of, request_in};
ghost use Rattle.sched_io.specs.MemoryFiles.{requests_in};
ghost use Rattle.sched_io.specs.Told.{IfHolds, missing, holds};

use crate::faults::LoadFault;
use crate::sources::Files;
use std::alloc::Global;
use std::mem;

/// Files in memory, each a name and its bytes, of which chosen loads fail. It tells all of them, and which
/// loads were requested as long as there is memory to keep that.
#[derive(Drop)]
pub struct MemoryFiles {
    files: Vec<(String, Vec<u8>)>,
    failing: Vec<u64>,
    loads: u64,
    requested: Option<Vec<(String, u64)>>,
    faults: u64,
}

impl MemoryFiles {
    /// These files, of which the loads with the numbers in `failing` fail, the first load having the number 0.
    /// Of files with one name the first counts. It takes no memory of its own.
    pub fn new(alloc: Global, files: Vec<(String, Vec<u8>)>, failing: Vec<u64>) -> MemoryFiles
        ensures told { (name : List ℕ) →
            told_by result name ≡ told_among (λ f. string_bytes f.0) (λ f. f.1.items) files.items name }
        ensures failing { failing_of result ≡ failing.items }
        ensures loads { loads_of result ≡ 0 }
        ensures requested { requested_of result ≡ Some [] }
        ensures faults { faults_of result ≡ 0 }
    {
        MemoryFiles {
            files,
            failing,
            loads: 0,
            requested: Some(Vec::new(alloc)),
            faults: 0,
        }
    }

    /// The loads so far, each a name and its limit in bytes, as long as there was memory to keep them.
    pub fn requested(&self) -> Option<&[(String, u64)]>
        ensures { MatchOption result (requested_of self.now ≡ None)
            (λ kept. requested_of self.now ≡ Some (map request_in kept.now)) }
    {
        match &self.requested {
            Some(kept) => Some(kept.as_slice()),
            None => None,
        }
    }
}

/// The bytes of the first file of that name.
fn bytes_under<'a>(files: &'a [(String, Vec<u8>)], name: &str) -> Option<&'a [u8]>
    ensures { let told = told_among (λ f. string_bytes f.0) (λ f. f.1.items) files.now name.now in
        MatchOption result (told ≡ missing) (λ bytes. told ≡ holds bytes.now) }
{
    for file in files {
        if file.0.as_str() == name {
            return Some(file.1.as_slice());
        }
    }
    None
}

/// The loads that were kept, with one more. Nothing, where there is no memory for it.
fn with_request(
    alloc: Global,
    kept: Option<Vec<(String, u64)>>,
    name: &str,
    limit: u64,
) -> Option<Vec<(String, u64)>>
    ensures { AreRequested (load_request name.now limit ∷ []) (requests_in kept) (requests_in result) }
{
    let mut kept = kept?;
    let name = String::from_str(alloc, name).ok()?;
    kept.push((name, limit)).ok()?;
    Some(kept)
}

impl Files for MemoryFiles {
    ghost told = { told_by };

    ghost faults = { faults_of };

    ghost requested = { requested_of };

    fn load(&mut self, alloc: Global, name: &str, limit: u64) -> Result<Vec<u8>, LoadFault>
        ensures bytes { IfOk result (λ bytes. IfHolds (told_by self.old name.now) (λ held. bytes.items ≡ held)) }
        ensures within { IfOk result (λ bytes. vec_len bytes ≤ limit) }
        ensures too_long { IsErrOf result LoadFault.TooLong →
            IfHolds (told_by self.old name.now) (λ held. limit < length held) }
        ensures failed { IsErrOf result LoadFault.Failed →
            Rose (faults_of self.old) (faults_of self.new) ⊎ (told_by self.old name.now ≡ missing) }
        ensures missing { told_by self.old name.now ≡ missing →
            IsErrOf result LoadFault.Failed ⊎ IsErrOf result LoadFault.Memory }
        ensures missing_is_no_fault { told_by self.old name.now ≡ missing → faults_of self.new ≡ faults_of self.old }
        ensures same { (other : List ℕ) → told_by self.new other ≡ told_by self.old other }
        ensures later { faults_of self.old ≤ faults_of self.new }
        ensures steady { IsErrOf result LoadFault.Failed ⊎ (faults_of self.new ≡ faults_of self.old) }
        ensures requests { AreRequested (load_request name.now limit ∷ [])
            (requested_of self.old) (requested_of self.new) }

        // Just the chosen loads fail, and those of a missing name.
        ensures chosen { Contains (failing_of self.old) (loads_of self.old) → IsErrOf result LoadFault.Failed }
        ensures only_chosen { IsErrOf result LoadFault.Failed →
            Contains (failing_of self.old) (loads_of self.old) ⊎ (told_by self.old name.now ≡ missing) }
        ensures failing { failing_of self.new ≡ failing_of self.old }
        ensures counted { loads_of self.new ≡ min (loads_of self.old + 1) u64.MAX }
    {
        let fails = self.failing.contains(&self.loads);
        self.loads = self.loads.saturating_add(1);
        self.requested = with_request(alloc, mem::take(&mut self.requested), name, limit);
        let Some(bytes) = bytes_under(self.files.as_slice(), name) else {
            return Err(LoadFault::Failed);
        };
        if fails {
            self.faults = self.faults.saturating_add(1);
            return Err(LoadFault::Failed);
        }
        if bytes.len() as u64 > limit {
            return Err(LoadFault::TooLong);
        }
        Ok(Vec::from_slice(alloc, bytes)?)
    }
}
