//! Reading: from a source to the two circuits that its text means, which a line parts.

ghost use Rattle.std.specs.Prelude.{◌≡◌, ◌≤◌, ◌⊎◌, List, ℕ, Some, length, IfOk, IfErr, IfSome};
ghost use Rattle.zx_gates.specs.Elementary.{IsElementary};
ghost use Rattle.zx_run.specs.declared.status.Status.TheVariants.{NoMemory};
ghost use Rattle.zx_run.specs.Internal.ErrorAnswers.{answer_to_text_error};
ghost use Rattle.zx_run.specs.FirstFault.{most_bytes, IsAccepted};
ghost use Rattle.zx_run.specs.TwoTexts.{AreAccepted, IsFirstFaultOfTwo};
ghost use Rattle.zx_run.specs.Answers.{told_source};
ghost use Rattle.zx_run.specs.Internal.Parts.{IsRead};
ghost use Rattle.zx_run.specs.Internal.Refusals.{IsFaultFrom, IsRefusalFor, moved_answer, moved_error};

use crate::input::read_bytes;
use crate::status::{Fault, Status};
use crate::two_texts::{PARTING_LINE, line_between};
use qasm_inline::{TextError, read};
use std::alloc::Global;
use zx_gates::Elementary;
use zx_io::Source;

/// The circuits that the two texts of a source mean, parted by the first line `//// second`.
///
/// # Errors
///
/// `ReadFault` where a read fails, whatever the bytes before it; `Refused` with the first fault:
/// `TooLong` of the whole, `NoSecond`, or that of the first text, or else of the second, with its
/// place in the whole; `NoMemory` where memory runs out.
pub fn read_two_circuits<S: Source>(
    alloc: Global,
    source: &mut S,
) -> Result<(Elementary, Elementary), Status>
    ensures accepted { (text : List ℕ) → S.left source.old ≡ Some text
        → IfOk result (λ read. AreAccepted text read.0 read.1) }
    ensures first_valid { IfOk result (λ read. IsElementary read.0) }
    ensures second_valid { IfOk result (λ read. IsElementary read.1) }
    ensures read { IsRead IsFirstFaultOfTwo
        (told_source S.left S.faults source.old) (told_source S.left S.faults source.new) result }
{
    let bytes = read_bytes(alloc, source)?;
    two_circuits(alloc, &bytes)
}

// The circuits that two texts mean.
fn two_circuits(alloc: Global, text: &[u8]) -> Result<(Elementary, Elementary), Status>
    requires { length text.now ≤ most_bytes }
    ensures accepted { IfOk result (λ read. AreAccepted text.now read.0 read.1) }
    ensures first_valid { IfOk result (λ read. IsElementary read.0) }
    ensures second_valid { IfOk result (λ read. IsElementary read.1) }
    ensures refusal { IfErr result (IsRefusalFor (IsFirstFaultOfTwo text.now)) }
{
    let Some(at) = line_between(text) else {
        return Err(Status::Refused(Fault::NoSecond));
    };
    let behind = at + PARTING_LINE.len();
    let first = circuit_from(alloc, &text[..at], 0)?;
    let second = circuit_from(alloc, &text[behind..], behind)?;
    Ok((first, second))
}

// The circuit of a text that stands so many bytes further on.
fn circuit_from(alloc: Global, text: &[u8], from: usize) -> Result<Elementary, Status>
    requires { length text.now ≤ most_bytes }
    ensures accepted { IfOk result (λ circuit. IsAccepted text.now circuit) }
    ensures valid { IfOk result (λ circuit. IsElementary circuit) }
    ensures refusal { IfErr result (IsRefusalFor (IsFaultFrom from text.now)) }
{
    match read(alloc, text) {
        Ok(circuit) => Ok(circuit),
        Err(error) => Err(answer_from(error, from)),
    }
}

// The answer to an error of a text that stands so many bytes further on. A place that can't be
// counted is want of memory.
fn answer_from(error: TextError, from: usize) -> Status
    ensures { (result ≡ NoMemory) ⊎ (result ≡ moved_answer from (answer_to_text_error error)) }
{
    match error_from(error, from) {
        Some(moved) => Status::from(moved),
        None => Status::NoMemory,
    }
}

// The error of a text that stands so many bytes further on, with its place in the whole.
fn error_from(error: TextError, from: usize) -> Option<TextError>
    ensures { IfSome result (λ moved. moved ≡ moved_error from error) }
{
    match error {
        TextError::BadByte { at } => {
            let at = from.checked_add(at)?;
            Some(TextError::BadByte { at })
        }
        TextError::TooDeep { at } => {
            let at = from.checked_add(at)?;
            Some(TextError::TooDeep { at })
        }
        TextError::Syntax { at } => {
            let at = from.checked_add(at)?;
            Some(TextError::Syntax { at })
        }
        TextError::Wrong { cause, at } => {
            let at = from.checked_add(at)?;
            Some(TextError::Wrong { cause, at })
        }
        TextError::NoMemory => Some(TextError::NoMemory),
    }
}
