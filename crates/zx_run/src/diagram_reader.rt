//! Reading: from a source to the diagram that its file spells.

ghost use Rattle.std.specs.Prelude.{◌≡◌, ◌≤◌, List, ℕ, Some, length, IfOk, IfErr};
ghost use Rattle.zx_text.specs.Reading.{most_ends};
ghost use Rattle.zx_run.specs.DiagramFiles.{IsDiagramFile, IsSquare, IsFirstDiagramFault, IsFirstSquareFault};
ghost use Rattle.zx_run.specs.Internal.ErrorAnswers.{answer_to_file_error};
ghost use Rattle.zx_run.specs.FirstFault.{most_bytes};
ghost use Rattle.zx_run.specs.Answers.{told_source};
ghost use Rattle.zx_run.specs.Internal.Parts.{IsRead};
ghost use Rattle.zx_run.specs.Internal.Refusals.{IsRefusalFor};

use crate::input::read_bytes;
use crate::status::{Fault, Status};
use diagram_text::{TextError as FileError, read_diagram};
use std::alloc::Global;
use zx_diagram::Diagram;
use zx_io::Source;

/// The diagram of the file that a source gives.
///
/// # Errors
///
/// `ReadFault` where a read fails, whatever the bytes before it; `Refused` with `TooLong` or else the
/// first line that doesn't fit; `NoMemory` where memory runs out.
pub fn read_diagram_file<S: Source>(alloc: Global, source: &mut S) -> Result<Diagram, Status>
    ensures spelled { (text : List ℕ) → S.left source.old ≡ Some text
        → IfOk result (λ diagram. IsDiagramFile text diagram) }
    ensures read { IsRead IsFirstDiagramFault
        (told_source S.left S.faults source.old) (told_source S.left S.faults source.new) result }
{
    let bytes = read_bytes(alloc, source)?;
    diagram_of(alloc, &bytes)
}

/// The same of a diagram that is to have as many outputs as inputs.
///
/// # Errors
///
/// Those of `read_diagram_file`, and `NotSquare` where the numbers differ.
pub fn read_square_diagram<S: Source>(alloc: Global, source: &mut S) -> Result<Diagram, Status>
    ensures spelled { (text : List ℕ) → S.left source.old ≡ Some text
        → IfOk result (λ diagram. IsDiagramFile text diagram) }
    ensures square { IfOk result (λ diagram. IsSquare diagram) }
    ensures few { IfOk result (λ diagram. length diagram.inputs ≤ most_ends) }
    ensures read { IsRead IsFirstSquareFault
        (told_source S.left S.faults source.old) (told_source S.left S.faults source.new) result }
{
    let bytes = read_bytes(alloc, source)?;
    square_diagram_of(alloc, &bytes)
}

// The diagram of a file, where it has as many outputs as inputs.
fn square_diagram_of(alloc: Global, bytes: &[u8]) -> Result<Diagram, Status>
    requires { length bytes.now ≤ most_bytes }
    ensures spelled { IfOk result (λ diagram. IsDiagramFile bytes.now diagram) }
    ensures square { IfOk result (λ diagram. IsSquare diagram) }
    ensures few { IfOk result (λ diagram. length diagram.inputs ≤ most_ends) }
    ensures refusal { IfErr result (IsRefusalFor (IsFirstSquareFault bytes.now)) }
{
    let diagram = diagram_of(alloc, bytes)?;
    if diagram.inputs().len() != diagram.outputs().len() {
        return Err(Status::Refused(Fault::NotSquare));
    }
    Ok(diagram)
}

// The diagram of a file.
fn diagram_of(alloc: Global, bytes: &[u8]) -> Result<Diagram, Status>
    requires { length bytes.now ≤ most_bytes }
    ensures spelled { IfOk result (λ diagram. IsDiagramFile bytes.now diagram) }
    ensures refusal { IfErr result (IsRefusalFor (IsFirstDiagramFault bytes.now)) }
{
    match read_diagram(alloc, bytes) {
        Ok(diagram) => Ok(diagram),
        Err(error) => Err(Status::from(error)),
    }
}

impl From<FileError> for Status {
    ghost from_gives = { λ error status. status ≡ answer_to_file_error error };

    fn from(error: FileError) -> Status {
        match error {
            FileError::BadLine { line } => Status::Refused(Fault::BadLine { line }),
            FileError::TooLong => Status::Refused(Fault::TooLong),
            FileError::NoMemory => Status::NoMemory,
        }
    }
}
