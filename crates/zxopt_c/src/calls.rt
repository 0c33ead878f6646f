//! The calls. Each answers the number of the program's answer, or 8 where what it writes has no room.

ghost use Rattle.std.specs.Prelude.{◌≡◌, Some};
ghost use Rattle.zx_words.specs.declared.words.Command.TheVariants.{Optimise, Teleport, Same, Compile, Reduce, Flow, Graph};
ghost use Rattle.zx_words.specs.Command.{IsWithinLimits};
ghost use Rattle.zxopt_c.specs.Calls.{IsAnswerTo, IsCall, IsHandedOver};
ghost use Rattle.zxopt_c.specs.Internal.Answers.{answer_with};

use crate::text::Text;
use crate::told::Told;
use std::alloc::Global;
use zx_run::{Status, Written, made};
use zx_words::Command;

// The answer where what is written has no room.
const NO_ROOM: u8 = 8;

/// Optimises a circuit: `zxopt opt`, with the flags `--best`, `--report` and `--scalar`.
#[unsafe(no_mangle)]
pub extern "C" fn zxopt_optimise(
    alloc: Global,
    best: bool,
    report: bool,
    scalar: bool,
    text: &[u8],
    out: &mut [u8],
    told: &mut Told,
) -> u8
    ensures { IsCall (Optimise best report scalar) text.now out.old out.new told.new result }
{
    let command = Command::Optimise {
        best,
        report,
        scalar,
    };
    answer_to(alloc, command, text, out, told)
}

/// Changes the phases of a circuit, and nothing else: `zxopt teleport`.
#[unsafe(no_mangle)]
pub extern "C" fn zxopt_teleport(alloc: Global, text: &[u8], out: &mut [u8], told: &mut Told) -> u8
    ensures { IsCall Teleport text.now out.old out.new told.new result }
{
    answer_to(alloc, Command::Teleport, text, out, told)
}

/// Tells whether two circuits have one linear map: `zxopt same`.
#[unsafe(no_mangle)]
pub extern "C" fn zxopt_same(alloc: Global, text: &[u8], out: &mut [u8], told: &mut Told) -> u8
    ensures { IsCall Same text.now out.old out.new told.new result }
{
    answer_to(alloc, Command::Same, text, out, told)
}

/// Finds a circuit for a diagram: `zxopt compile`.
#[unsafe(no_mangle)]
pub extern "C" fn zxopt_compile(alloc: Global, text: &[u8], out: &mut [u8], told: &mut Told) -> u8
    ensures { IsCall Compile text.now out.old out.new told.new result }
{
    answer_to(alloc, Command::Compile, text, out, told)
}

/// Simplifies a graph along its flow: `zxopt reduce`.
#[unsafe(no_mangle)]
pub extern "C" fn zxopt_reduce(alloc: Global, text: &[u8], out: &mut [u8], told: &mut Told) -> u8
    ensures { IsCall Reduce text.now out.old out.new told.new result }
{
    answer_to(alloc, Command::Reduce, text, out, told)
}

/// Tells whether a table is a flow of a graph: `zxopt flow`.
#[unsafe(no_mangle)]
pub extern "C" fn zxopt_flow(alloc: Global, text: &[u8], out: &mut [u8], told: &mut Told) -> u8
    ensures { IsCall Flow text.now out.old out.new told.new result }
{
    answer_to(alloc, Command::Flow, text, out, told)
}

/// Writes the graph-like form of a diagram: `zxopt graph`.
#[unsafe(no_mangle)]
pub extern "C" fn zxopt_graph(alloc: Global, text: &[u8], out: &mut [u8], told: &mut Told) -> u8
    ensures { IsCall Graph text.now out.old out.new told.new result }
{
    answer_to(alloc, Command::Graph, text, out, told)
}

// Answers a command on a text.
fn answer_to(alloc: Global, command: Command, text: &[u8], out: &mut [u8], told: &mut Told) -> u8
    requires { IsWithinLimits (Some command) }
    ensures { IsCall command text.now out.old out.new told.new result }
{
    let (answer, bytes) = answer_for(alloc, command, text);
    hand_over(answer, &bytes, out, told)
}

// The answer of a command to a text, and what it writes with it.
fn answer_for(alloc: Global, command: Command, text: &[u8]) -> (Status, Vec<u8>)
    requires { IsWithinLimits (Some command) }
    ensures { IsAnswerTo command text.now result.0 result.1.items }
{
    let mut source = Text::new(text);
    match made(alloc, command, &mut source) {
        Ok(written) => (answer_with(&written), written.bytes),
        Err(failure) => (failure, Vec::new(alloc)),
    }
}

// The answer with which something is written.
fn answer_with(written: &Written) -> Status
    ensures { result ≡ answer_with written.now.is_no }
{
    if written.is_no {
        Status::No
    } else {
        Status::Done
    }
}

// Tells an answer and how many bytes are written with it, and copies these where there is room.
fn hand_over(answer: Status, bytes: &[u8], out: &mut [u8], told: &mut Told) -> u8
    ensures { IsHandedOver answer bytes.now out.old out.new told.new result }
{
    let length = bytes.len();
    *told = Told::of(answer, length);
    if out.len() < length {
        return NO_ROOM;
    }
    out[..length].copy_from_slice(bytes);
    answer.number()
}
