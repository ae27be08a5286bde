//! Documents.
ghost use Rattle.std.specs.Prelude.{◌≡◌, true, IfOk};
ghost use Rattle.qz_document.specs.Document.{ReadsDocumentAs};
ghost use Rattle.qz_document.specs.Items.{are_valid};

use qz_document::Document;
use qz_job_json::LineError;
use std::alloc::Global;

/// Reads a document, as `qz_document::read_document` does.
pub fn read_document(alloc: Global, bytes: &[u8]) -> Result<Document, LineError>
    ensures meaning { ReadsDocumentAs result bytes.now }
    ensures valid { IfOk result (λ document. are_valid document.commands ≡ true) }
{
    qz_document::read_document(alloc, bytes)
}
