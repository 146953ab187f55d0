//! Laws of the definitions, each a function without parameters whose contract is the law.

ghost use Rattle.cert_file.specs.Laws.{OneReading, ProvedMeet, WrittenIsVerified};

/// A text is read in one way: it is the file of one list of certificates for each obligation at most, or has one first
/// bad line.
pub fn law_one_reading()
    ensures { OneReading }
{}

/// A policy meets its statements where a file proves it, whoever made the file.
pub fn law_proved()
    ensures { ProvedMeet }
{}

/// What `write_certs` wrote of a policy is verified for it, but for want of memory.
pub fn law_written()
    ensures { WrittenIsVerified }
{}
