//! The line about an answer that goes to the error output.

ghost use Rattle.std.specs.Prelude.{◌≡◌, ◌≢◌, ◌≤◌, ◌++◌, [], length};
ghost use Rattle.zx_io.specs.Causes.{Rose};
ghost use Rattle.zx_run.specs.ErrorLine.{error_line, fault_name, place_text};
ghost use Rattle.zx_run.specs.Outcome.{Gains, GainsPrefix};

use crate::status::{Fault, Status};
use arrayvec::ArrayString;
use itoa::Buffer;
use zx_io::{Sink, write_all};

// A line, which takes no memory of the heap.
type Line = ArrayString<128>;

/// Writes the line of an answer, and passes the answer on, whether or not the line was taken.
pub fn report<E: Sink>(status: Status, err: &mut E) -> Status
    ensures answer { result ≡ status }
    ensures prefix { GainsPrefix (E.taken err.old) (E.taken err.new) (error_line result) }
    ensures whole { ¬ Rose (E.faults err.old) (E.faults err.new)
        → Gains (E.taken err.old) (E.taken err.new) (error_line result) }
    ensures flushed { ¬ Rose (E.faults err.old) (E.faults err.new)
        → error_line result ≢ [] → E.pending err.new ≡ 0 }
{
    let line = error_line(status);
    if !line.as_str().is_empty() {
        let _ = write_all(err, line.as_str().as_bytes());
    }
    status
}

// The line of an answer.
fn error_line(status: Status) -> Line
    ensures { result.bytes ≡ error_line status }
{
    match status {
        Status::Done | Status::No => Line::new(),
        Status::Refused(fault) => refusal_line(fault),
        Status::Usage => line_with(
            "usage: zxopt opt [--best] [--report] [--scalar] | reduce | flow | graph | gen SEED QUBITS GATES | compile | teleport | same\n",
        ),
        Status::ReadFault => line_with("zxopt: read fault\n"),
        Status::WriteFault => line_with("zxopt: write fault\n"),
        Status::NoMemory => line_with("zxopt: no memory\n"),
    }
}

// A line of these bytes.
fn line_with(text: &str) -> Line
    requires { length text.now ≤ 128 }
    ensures { result.bytes ≡ text.now }
{
    let mut line = Line::new();
    line.push_str(text);
    line
}

// The line of a refusal.
fn refusal_line(fault: Fault) -> Line
    ensures { result.bytes ≡ error_line (Status.Refused fault) }
{
    let mut buffer = Buffer::new();
    let mut line = line_with("zxopt: fault ");
    line.push_str(buffer.format(fault.number()));
    line.push_str(" ");
    line.push_str(name_of(fault));
    push_place(&mut line, fault.place());
    line.push_str("\n");
    line
}

// Adds a place where there is one.
fn push_place(line: &mut Line, place: Option<usize>)
    requires { length line.old.bytes ≤ 64 }
    ensures text { line.new.bytes ≡ line.old.bytes ++ place_text place }
    ensures short { length line.new.bytes ≤ 112 }
{
    if let Some(at) = place {
        let mut buffer = Buffer::new();
        line.push_str(" at ");
        line.push_str(buffer.format(at));
    }
}

// A fault's name.
fn name_of(fault: Fault) -> &'static str
    ensures name { result.now ≡ fault_name fault }
    ensures short { length result.now ≤ 16 }
{
    match fault {
        Fault::TooLong => "TooLong",
        Fault::BadByte { .. } => "BadByte",
        Fault::Syntax { .. } => "Syntax",
        Fault::Version => "Version",
        Fault::Include { .. } => "Include",
        Fault::Unsupported { .. } => "Unsupported",
        Fault::Redeclared { .. } => "Redeclared",
        Fault::EmptyRegister { .. } => "EmptyRegister",
        Fault::TooManyQubits { .. } => "TooManyQubits",
        Fault::Unknown { .. } => "Unknown",
        Fault::WrongCount { .. } => "WrongCount",
        Fault::Index { .. } => "Index",
        Fault::Sizes { .. } => "Sizes",
        Fault::SameQubit { .. } => "SameQubit",
        Fault::Divide { .. } => "Divide",
        Fault::AngleTooLarge { .. } => "AngleTooLarge",
        Fault::NotSixteenthTurn { .. } => "NotSixteenthTurn",
        Fault::TooDeep { .. } => "TooDeep",
        Fault::TooManyGates { .. } => "TooManyGates",
        Fault::SecondVersion { .. } => "SecondVersion",
        Fault::BadLine { .. } => "BadLine",
        Fault::AfterMeasure { .. } => "AfterMeasure",
        Fault::BitTwice { .. } => "BitTwice",
        Fault::TooManyBits { .. } => "TooManyBits",
        Fault::NotSquare => "NotSquare",
        Fault::NoSecond => "NoSecond",
    }
}
