//! Reading: from a source to the circuit that its text means.

ghost use Rattle.std.specs.Prelude.{◌≡◌, List, ℕ, Some, IfOk};
ghost use Rattle.zx_gates.specs.Elementary.{IsElementary};
ghost use Rattle.zx_run.specs.FirstFault.{IsAccepted, IsFirstFault, fault_of};
ghost use Rattle.zx_run.specs.Internal.ErrorAnswers.{answer_to_read_error, answer_to_text_error};
ghost use Rattle.zx_run.specs.Answers.{told_source};
ghost use Rattle.zx_run.specs.Internal.Parts.{IsRead};

use crate::input::MOST_BYTES;
use crate::status::{Fault, Status};
use bumpalo::Bump;
use qasm_inline::{PieceReader, TextError};
use qasm_scope::Cause;
use std::alloc::Global;
use zx_gates::Elementary;
use zx_io::{ReadError, Source, read_pieces};

/// The circuit that the text of a source means. The text is read piece by piece, and isn't kept.
///
/// # Errors
///
/// `ReadFault` where a read fails, whatever the bytes before it; `Refused` with the text's first
/// fault; `NoMemory` where memory runs out.
pub fn read_circuit<S: Source>(alloc: Global, source: &mut S) -> Result<Elementary, Status>
    ensures accepted { (text : List ℕ) → S.left source.old ≡ Some text
        → IfOk result (λ circuit. IsAccepted text circuit) }
    ensures valid { IfOk result (λ circuit. IsElementary circuit) }
    ensures read { IsRead IsFirstFault
        (told_source S.left S.faults source.old) (told_source S.left S.faults source.new) result }
{
    let arena = Bump::new(alloc);
    let mut reader = PieceReader::new(alloc, &arena);
    read_pieces(source, MOST_BYTES, &mut reader)?;
    Ok(reader.finish()?)
}

impl From<ReadError> for Status {
    ghost from_gives = { λ error status. status ≡ answer_to_read_error error };

    fn from(error: ReadError) -> Status {
        match error {
            ReadError::ReadFault => Status::ReadFault,
            ReadError::TooLong => Status::Refused(Fault::TooLong),
            ReadError::NoMemory => Status::NoMemory,
        }
    }
}

impl From<TextError> for Status {
    ghost from_gives = { λ error status. status ≡ answer_to_text_error error };

    fn from(error: TextError) -> Status {
        match error {
            TextError::BadByte { at } => Status::Refused(Fault::BadByte { at }),
            TextError::TooDeep { at } => Status::Refused(Fault::TooDeep { at }),
            TextError::Syntax { at } => Status::Refused(Fault::Syntax { at }),
            TextError::Wrong { cause, at } => Status::Refused(fault_of(cause, at)),
            TextError::NoMemory => Status::NoMemory,
        }
    }
}

// What is wrong with the statement at a place, as a fault.
fn fault_of(cause: Cause, at: usize) -> Fault
    ensures { result ≡ fault_of cause at }
{
    match cause {
        Cause::Version => Fault::Version,
        Cause::Include => Fault::Include { at },
        Cause::Unsupported => Fault::Unsupported { at },
        Cause::Redeclared => Fault::Redeclared { at },
        Cause::EmptyRegister => Fault::EmptyRegister { at },
        Cause::TooManyQubits => Fault::TooManyQubits { at },
        Cause::Unknown => Fault::Unknown { at },
        Cause::WrongCount => Fault::WrongCount { at },
        Cause::Index => Fault::Index { at },
        Cause::Sizes => Fault::Sizes { at },
        Cause::SameQubit => Fault::SameQubit { at },
        Cause::Divide => Fault::Divide { at },
        Cause::AngleTooLarge => Fault::AngleTooLarge { at },
        Cause::NotSixteenthTurn => Fault::NotSixteenthTurn { at },
        Cause::TooDeep => Fault::TooDeep { at },
        Cause::TooManyGates => Fault::TooManyGates { at },
        Cause::SecondVersion => Fault::SecondVersion { at },
        Cause::AfterMeasure => Fault::AfterMeasure { at },
        Cause::BitTwice => Fault::BitTwice { at },
        Cause::TooManyBits => Fault::TooManyBits { at },
    }
}
