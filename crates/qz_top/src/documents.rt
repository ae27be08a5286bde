//! The document on an input.
ghost use Rattle.std.specs.Prelude.{◌≡◌, ◌≤◌, ◌≢◌, IfOk, IfErr, Ok, Some, true};
ghost use Rattle.qz_civil.specs.Causes.{Rose};
ghost use Rattle.qz_document.specs.Document.{document_meaning};
ghost use Rattle.qz_document.specs.Items.{are_valid};
ghost use Rattle.qz_top.specs.Loads.{CauseOfNone, HadDocument};

use crate::statuses::kind_of;
use crate::{BadKind, Status};
use qz_document::{Document, read_document};
use qz_input::{DOCUMENT_LIMIT, ReadWholeError, read_whole};
use qz_io::Source;
use qz_job_json::LineError;
use qz_types::List;
use std::alloc::Global;

/// Reads the input to its end, and the document that it is. The error is the status of a call that can't have one: what
/// is wrong with a document has the line number 0.
pub(crate) fn document_of<S: Source>(alloc: Global, input: &mut S) -> Result<Document, Status>
    ensures had { IfOk result (λ document. HadDocument document (S.left input.old) (S.left input.new)) }
    ensures valid { IfOk result (λ document. are_valid document.commands ≡ true) }
    ensures cause { IfErr result (λ status. CauseOfNone status (S.left input.old)) }
    ensures reads { S.faults input.old ≤ S.faults input.new }
    ensures read { IfErr result (λ status. status ≡ Status.ReadFault → Rose (S.faults input.old) (S.faults input.new)) }
{
    match read_whole(alloc, input, DOCUMENT_LIMIT) {
        Ok(bytes) => document_in(alloc, bytes),
        Err(ReadWholeError::Failed) => Err(Status::ReadFault),
        Err(ReadWholeError::TooLong) => Err(bad_document(BadKind::TooLong)),
        Err(ReadWholeError::NoMemory) => Err(Status::NoMemory),
    }
}

// The document that these bytes are.
fn document_in(alloc: Global, bytes: List<u8>) -> Result<Document, Status>
    ensures meaning { IfOk result (λ document. document_meaning bytes ≡ Ok document) }
    ensures valid { IfOk result (λ document. are_valid document.commands ≡ true) }
    ensures cause { IfErr result (λ status. CauseOfNone status (Some bytes)) }
    ensures other { IfErr result (λ status. status ≢ Status.ReadFault) }
{
    let document = read_document(alloc, bytes.as_slice());
    drop(bytes);
    match document {
        Ok(document) => Ok(document),
        Err(LineError::Bad(fault)) => Err(bad_document(kind_of(fault))),
        Err(LineError::NoMemory) => Err(Status::NoMemory),
    }
}

// The status of a document that is bad.
fn bad_document(fault: BadKind) -> Status
    ensures { result ≡ Status.BadLine 0 fault }
{
    Status::BadLine { line: 0, fault }
}
