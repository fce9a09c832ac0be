//! A document's fault is looked for and explained.

ghost use Rattle.std.specs.Prelude.{◌≡◌, IfOk, IfErr, IfSome, OnOk, None};
ghost use Rattle.command_line.specs.Input.{HasRead, IsInputFault};
ghost use Rattle.document_checks.specs.Explanations.{fault_of_either};
ghost use Rattle.pipeline_app.specs.Checks.{IsCheckFault};

use command_line::{AppFault, read_all};
use document_checks::{explain, explain_run, too_long};
use play_documents::DocFault;
use std::alloc::Global;
use std::io::Read;

/// Reads a document, as `read_all` does. Where it is too long, `why` says so.
pub(crate) fn read_explained<R: Read>(
    alloc: Global,
    reader: &mut R,
    why: &mut String,
) -> Result<Vec<u8>, AppFault>
    ensures all { IfOk result (λ v. IfSome (R.remaining reader.old) (λ input. v.items ≡ input)) }
    ensures err { IfErr result (IsInputFault (R.remaining reader.old)) }
    ensures reads { HasRead (R.remaining reader.old) (R.remaining reader.new) result }
{
    let result = read_all(alloc, reader);
    if let Err(AppFault::Document(DocFault::TooLong)) = &result {
        if let Ok(explanation) = too_long(alloc) {
            *why = explanation.text;
        }
    }
    result
}

/// Where a pipeline's document was refused, `why` says where it has its fault and which.
pub(crate) fn explain_refusal<T>(
    alloc: Global,
    bytes: &[u8],
    workers: u32,
    ran: &Result<T, AppFault>,
    why: &mut String,
) {
    let Err(AppFault::Document(_)) = ran else {
        return;
    };
    if let Ok(Some(explanation)) = explain_run(alloc, bytes, workers as usize) {
        *why = explanation.text;
    }
}

/// Reads a document of either kind, and looks for its first fault, with so many workers where it is a pipeline's. Where it has one, `why`
/// says where it is and why, in lines that end in a line feed.
pub fn check<R: Read>(
    alloc: Global,
    reader: &mut R,
    workers: u32,
    why: &mut String,
) -> Result<(), AppFault>
    ensures ok { OnOk result (IfSome (R.remaining reader.old) (λ input. fault_of_either workers input ≡ None)) }
    ensures err { IfErr result (IsCheckFault workers (R.remaining reader.old)) }
    ensures reads { HasRead (R.remaining reader.old) (R.remaining reader.new) result }
{
    let bytes = read_explained(alloc, reader, why)?;
    match explain(alloc, &bytes, workers as usize) {
        Ok(None) => Ok(()),
        Ok(Some(explanation)) => {
            *why = explanation.text;
            Err(AppFault::Document(explanation.fault))
        }
        Err(_) => Err(AppFault::Memory),
    }
}
