//! A run of the program, over any source and sinks.

ghost use Rattle.std.specs.Prelude.{◌≡◌, ◌≢◌, ◌⊎◌, ◌+◌, List, ℕ, [], drop, None, Some, IfOk, IfErr};
ghost use Rattle.zx_io.specs.Causes.{Rose};
ghost use Rattle.zx_words.specs.declared.words.Command.{Command};
ghost use Rattle.zx_words.specs.declared.words.Command.TheVariants.{Optimise, Reduce, Flow, Graph, Compile, Teleport, Same};
ghost use Rattle.zx_words.specs.Command.{IsWithinLimits, command_in};
ghost use Rattle.zx_run.specs.declared.status.Fault.{Fault};
ghost use Rattle.zx_run.specs.FirstFault.{most_bytes};
ghost use Rattle.zx_run.specs.Outcome.{Gains, GainsNoFor, GainsOutputFor, GainsPrefix, GainsPrefixFor, IsAnswerOfGen, IsGen, IsOrNoMemory};
ghost use Rattle.zx_run.specs.Outcome.{IsFailed, IsFaultlessFor, IsFirstFaultFor, IsOrFailedRead, LeavesOutput, MayAnswer, ReadsSource, SaysEnd};
ghost use Rattle.zx_run.specs.ErrorLine.{error_line};
ghost use Rattle.zx_run.specs.Answers.{IsAnswer, IsFailure, IsMade, Reads, streams, told_output, told_source};
ghost use Rattle.zx_run.specs.Internal.Parts.{Makes};

use crate::comparison::comparison_text;
use crate::compilation::compiled_text;
use crate::diagram_reader::{read_diagram_file, read_square_diagram};
use crate::error_line::report;
use crate::flow_reader::read_flow_file;
use crate::flow_verdict::flow_verdict;
use crate::generation::generation_report;
use crate::graph_form::graph_text;
use crate::output::optimised_text;
use crate::reader::read_circuit;
use crate::reduction::reduction;
use crate::status::Status;
use crate::teleporting::teleported_text;
use crate::two_reader::read_two_circuits;
use crate::written::Written;
use std::alloc::Global;
use zx_io::{Sink, Source, WriteFault, write_all};
use zx_words::{Command, command_in};

/// Runs the command that the words give, those after the program's name: `opt` reads a text from
/// `source` to its end, and writes the text of the optimised circuit to `out`, with `--report` its
/// report too; `teleport` reads one and writes it with phases alone changed; `same` reads two and
/// tells whether their circuits have one map. `flow` reads a graph with a table of corrections, and
/// tells whether it is a flow; `reduce` simplifies the graph along it. `graph` and `compile` read a
/// diagram, and write its graph-like form, or a circuit for it. `gen` reads nothing, and writes the
/// report of a circuit from a seed. A line about any other answer than Done and No goes to `err`,
/// whose failures change nothing: it is `answer`, and then `report`.
///
/// Want of memory may take the place of Done, No, Usage and a refusal, and of no other answer.
pub fn run<'a, S: Source, O: Sink, E: Sink>(
    alloc: Global,
    words: &'a [&'a str],
    source: &mut S,
    out: &mut O,
    err: &mut E,
) -> Status
    // Done: no stream failed, the output was flushed, and it gained what the command may write.
    ensures done { result ≡ Status.Done →
        (S.faults source.new ≡ S.faults source.old) × (O.faults out.new ≡ O.faults out.old) }
    ensures done_flushed { result ≡ Status.Done → O.pending out.new ≡ 0 }
    ensures done_output { (command : Command) → result ≡ Status.Done →
        command_in words.now ≡ Some command →
        GainsOutputFor command (S.left source.old) (O.taken out.old) (O.taken out.new) }

    // No: the same, but that the output gained what the command may write with this answer.
    ensures no { result ≡ Status.No →
        (S.faults source.new ≡ S.faults source.old) × (O.faults out.new ≡ O.faults out.old) }
    ensures no_flushed { result ≡ Status.No → O.pending out.new ≡ 0 }
    ensures no_output { (command : Command) → result ≡ Status.No →
        command_in words.now ≡ Some command →
        GainsNoFor command (S.left source.old) (O.taken out.old) (O.taken out.new) }

    // Usage: only where the words are no command, and always there, unless memory runs out. Nothing is
    // read then.
    ensures usage { result ≡ Status.Usage → command_in words.now ≡ None }
    ensures usage_where { command_in words.now ≡ None → IsOrNoMemory Status.Usage result }
    ensures usage_unread { result ≡ Status.Usage → source.new ≡ source.old }

    // Refused: no read failed. Exactly where the fault is the first one of the text, as the command
    // reads it, unless a read fails or memory runs out.
    ensures refused { (fault : Fault) → result ≡ Status.Refused fault
        → S.faults source.new ≡ S.faults source.old }
    ensures refused_first { (command : Command) (text : List ℕ) (fault : Fault) →
        command_in words.now ≡ Some command → S.left source.old ≡ Some text →
        result ≡ Status.Refused fault → IsFirstFaultFor command text fault }
    ensures refused_where { (command : Command) (text : List ℕ) (fault : Fault) →
        command_in words.now ≡ Some command → S.left source.old ≡ Some text →
        IsFirstFaultFor command text fault → IsOrFailedRead (Status.Refused fault) result }

    // ReadFault and WriteFault: only where that stream failed in this call, and always where its count
    // tells so.
    ensures read_fault { result ≡ Status.ReadFault
        → Rose (S.faults source.old) (S.faults source.new) }
    ensures read_fault_where { S.faults source.new ≢ S.faults source.old
        → result ≡ Status.ReadFault }
    ensures write_fault { result ≡ Status.WriteFault →
        Rose (O.faults out.old) (O.faults out.new) × (S.faults source.new ≡ S.faults source.old) }
    ensures write_fault_where { O.faults out.new ≢ O.faults out.old → result ≡ Status.WriteFault }
    ensures write_fault_output { (command : Command) → result ≡ Status.WriteFault →
        command_in words.now ≡ Some command →
        GainsPrefixFor command (S.left source.old) (O.taken out.old) (O.taken out.new) }

    // A text without fault is answered as it decides, unless a stream fails or memory runs out.
    ensures complete { (command : Command) (text : List ℕ) → command_in words.now ≡ Some command →
        S.left source.old ≡ Some text → IsFaultlessFor command text →
        MayAnswer command text result ⊎ IsFailed result }

    // `gen` reads nothing, and is done unless the output fails or memory runs out.
    ensures gen_answers { IsGen (command_in words.now) → IsAnswerOfGen result }
    ensures gen_complete { IsGen (command_in words.now) →
        ¬ Rose (O.faults out.old) (O.faults out.new) → IsOrNoMemory Status.Done result }
    ensures gen_unread { IsGen (command_in words.now) → source.new ≡ source.old }

    // What stands after the answer.
    ensures read_to_end { (command : Command) (text : List ℕ) →
        command_in words.now ≡ Some command → S.left source.old ≡ Some text →
        ReadsSource command → SaysEnd result → S.left source.new ≡ Some [] }
    ensures too_long_unread { (command : Command) (text : List ℕ) →
        command_in words.now ≡ Some command → S.left source.old ≡ Some text →
        result ≡ Status.Refused Fault.TooLong → S.left source.new ≡ Some (drop (most_bytes + 1) text) }
    ensures out_kept { LeavesOutput result → out.new ≡ out.old }
    ensures err_prefix { GainsPrefix (E.taken err.old) (E.taken err.new) (error_line result) }
    ensures err_whole { ¬ Rose (E.faults err.old) (E.faults err.new) →
        Gains (E.taken err.old) (E.taken err.new) (error_line result) }
    ensures err_flushed { ¬ Rose (E.faults err.old) (E.faults err.new) →
        error_line result ≢ [] → E.pending err.new ≡ 0 }
{
    let status = answer(alloc, words, source, out);
    report(status, err)
}

/// The answer of `run`, without its line: what it says of the source and the output before and after, by cases. Where
/// there is an output, all of it is made before its first byte is written.
pub fn answer<'a, S: Source, O: Sink>(
    alloc: Global,
    words: &'a [&'a str],
    source: &mut S,
    out: &mut O,
) -> Status
    ensures unread { ¬ Reads (command_in words.now) → source.new ≡ source.old }
    ensures out_kept { LeavesOutput result → out.new ≡ out.old }
    ensures answers { let s = told_source S.left S.faults in
        let o = told_output O.taken O.faults O.pending in IsAnswer (command_in words.now)
        (streams (s source.old) (o out.old)) (streams (s source.new) (o out.new)) result }
{
    let output = match output_of(alloc, words, source) {
        Ok(output) => output,
        Err(status) => return status,
    };
    match write_all(out, &output.bytes) {
        Ok(()) if output.is_no => Status::No,
        Ok(()) => Status::Done,
        Err(WriteFault) => Status::WriteFault,
    }
}

// What the command that the words give writes, or the answer where there is nothing to write.
fn output_of<'a, S: Source>(
    alloc: Global,
    words: &'a [&'a str],
    source: &mut S,
) -> Result<Written, Status>
    ensures unread { ¬ Reads (command_in words.now) → source.new ≡ source.old }
    ensures made { IfOk result (λ output. IsMade (command_in words.now)
        (told_source S.left S.faults source.old) (told_source S.left S.faults source.new)
        output.is_no output.bytes.items) }
    ensures failure { IfErr result (IsFailure (command_in words.now)
        (told_source S.left S.faults source.old) (told_source S.left S.faults source.new)) }
{
    match command_in(alloc, words)? {
        None => Err(Status::Usage),
        Some(command) => made(alloc, command, source),
    }
}

/// What a command writes for what the source gives, or the answer where there is nothing to write.
///
/// # Errors
///
/// `Refused` where what was read has a fault, with the first one; `ReadFault` where a read fails; `NoMemory` where memory
/// runs out. No other answer.
pub fn made<S: Source>(alloc: Global, command: Command, source: &mut S) -> Result<Written, Status>
    requires { IsWithinLimits (Some command) }
    ensures unread { ¬ ReadsSource command → source.new ≡ source.old }
    ensures made { IfOk result (λ output. IsMade (Some command)
        (told_source S.left S.faults source.old) (told_source S.left S.faults source.new)
        output.is_no output.bytes.items) }
    ensures failure { IfErr result (IsFailure (Some command)
        (told_source S.left S.faults source.old) (told_source S.left S.faults source.new)) }
{
    match command {
        Command::Optimise {
            best,
            report,
            scalar,
        } => output_of_opt(alloc, best, report, scalar, source),
        Command::Reduce => output_of_reduce(alloc, source),
        Command::Flow => output_of_flow(alloc, source),
        Command::Graph => output_of_graph(alloc, source),
        Command::Compile => output_of_compile(alloc, source),
        Command::Teleport => output_of_teleport(alloc, source),
        Command::Same => output_of_same(alloc, source),
        Command::Generate {
            seed,
            qubits,
            gates,
        } => {
            let bytes = generation_report(alloc, seed, qubits, gates)?;
            Ok(Written::done(bytes))
        }
    }
}

// What `opt` writes for the text that the source gives.
fn output_of_opt<S: Source>(
    alloc: Global,
    best: bool,
    report: bool,
    scalar: bool,
    source: &mut S,
) -> Result<Written, Status>
    ensures { Makes (Optimise best report scalar)
        (told_source S.left S.faults source.old) (told_source S.left S.faults source.new) result }
{
    let read = read_circuit(alloc, source)?;
    let bytes = optimised_text(alloc, &read, best, report, scalar)?;
    Ok(Written::done(bytes))
}

// What `teleport` writes for the text that the source gives.
fn output_of_teleport<S: Source>(alloc: Global, source: &mut S) -> Result<Written, Status>
    ensures { Makes Teleport
        (told_source S.left S.faults source.old) (told_source S.left S.faults source.new) result }
{
    let read = read_circuit(alloc, source)?;
    let bytes = teleported_text(alloc, &read)?;
    Ok(Written::done(bytes))
}

// What `reduce` writes for the file that the source gives.
fn output_of_reduce<S: Source>(alloc: Global, source: &mut S) -> Result<Written, Status>
    ensures { Makes Reduce
        (told_source S.left S.faults source.old) (told_source S.left S.faults source.new) result }
{
    let (graph, table) = read_flow_file(alloc, source)?;
    Ok(reduction(alloc, graph, table)?)
}

// What `flow` writes for the file that the source gives.
fn output_of_flow<S: Source>(alloc: Global, source: &mut S) -> Result<Written, Status>
    ensures { Makes Flow
        (told_source S.left S.faults source.old) (told_source S.left S.faults source.new) result }
{
    let (graph, table) = read_flow_file(alloc, source)?;
    Ok(flow_verdict(alloc, graph, table)?)
}

// What `graph` writes for the file that the source gives.
fn output_of_graph<S: Source>(alloc: Global, source: &mut S) -> Result<Written, Status>
    ensures { Makes Graph
        (told_source S.left S.faults source.old) (told_source S.left S.faults source.new) result }
{
    let diagram = read_diagram_file(alloc, source)?;
    let bytes = graph_text(alloc, diagram)?;
    Ok(Written::done(bytes))
}

// What `compile` writes for the file that the source gives.
fn output_of_compile<S: Source>(alloc: Global, source: &mut S) -> Result<Written, Status>
    ensures { Makes Compile
        (told_source S.left S.faults source.old) (told_source S.left S.faults source.new) result }
{
    let diagram = read_square_diagram(alloc, source)?;
    Ok(compiled_text(alloc, diagram)?)
}

// What `same` writes for the two texts that the source gives.
fn output_of_same<S: Source>(alloc: Global, source: &mut S) -> Result<Written, Status>
    ensures { Makes Same
        (told_source S.left S.faults source.old) (told_source S.left S.faults source.new) result }
{
    let (one, other) = read_two_circuits(alloc, source)?;
    Ok(comparison_text(alloc, &one, &other)?)
}
