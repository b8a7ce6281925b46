//! Why the system refused a call.

use cml_host::{Reason, StoreFault};
use std::io::{Error, ErrorKind, Read, Write};

/// That the system refused a call for this error.
pub fn refused(error: Error) -> StoreFault {
    StoreFault::Refused(reason_of(error.kind()))
}

/// That reading was refused, and what the system says where it is asked once more: a read that was refused says nothing behind the count of
/// reads.
pub fn read_refused<F: Read>(file: &mut F) -> StoreFault {
    let mut byte = [0u8; 1];
    match file.read(&mut byte) {
        Ok(_) => StoreFault::Refused(None),
        Err(error) => refused(error),
    }
}

/// The same of writing to a file that is thrown away.
pub fn write_refused<F: Write>(file: &mut F, bytes: &[u8]) -> StoreFault {
    match file.write(bytes) {
        Ok(_) => StoreFault::Refused(None),
        Err(error) => refused(error),
    }
}

// The reason that an error of this kind is, where it is one of a file's.
fn reason_of(kind: ErrorKind) -> Option<Reason> {
    match kind {
        ErrorKind::NotFound => Some(Reason::NotFound),
        ErrorKind::PermissionDenied => Some(Reason::Denied),
        ErrorKind::IsADirectory => Some(Reason::IsFolder),
        ErrorKind::NotADirectory => Some(Reason::NoFolder),
        ErrorKind::InvalidFilename => Some(Reason::LongName),
        ErrorKind::FilesystemLoop => Some(Reason::Loop),
        ErrorKind::ReadOnlyFilesystem => Some(Reason::ReadOnly),
        ErrorKind::StorageFull => Some(Reason::Full),
        ErrorKind::QuotaExceeded => Some(Reason::Quota),
        ErrorKind::FileTooLarge => Some(Reason::TooLarge),
        ErrorKind::ExecutableFileBusy => Some(Reason::Busy),
        _ => None,
    }
}
