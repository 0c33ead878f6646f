//! Graph files that are read, and a page of lines that don't fit.

use super::written_graphs::is_written;
use std::alloc::{AllocError, Global};
use zx_text::{TextError, read_graph, read_graph_with_flow};

// Texts that aren't files of version 2, without their first line, each with the first line that
// doesn't fit.
const WRONG: [(&[u8], usize); 40] = [
    (b"", 2),
    (b"end", 2),
    (b"\nend\n", 2),
    (b"vertex 1 XY 0\nend\n", 2),
    (b"vertex 00 XY 0\nend\n", 2),
    (b"vertex 18446744073709551616 XY 0\nend\n", 2),
    (b"vertex 0 XX 0\nend\n", 2),
    (b"vertex 0 XY 16\nend\n", 2),
    (b"vertex 0 XY +1\nend\n", 2),
    (b"vertex 0  XY 0\nend\n", 2),
    (b"vertex 0 XY 0 \nend\n", 2),
    (b"vertex 0 XY 0\r\nend\n", 2),
    (b"vertex 0 XY\nend\n", 2),
    (b"vertex 0 XY 0\nvertex 1 XY 0\nedge 1 0\nend\n", 4),
    (b"vertex 0 XY 0\nvertex 1 XY 0\nedge 1 1\nend\n", 4),
    (b"vertex 0 XY 0\nvertex 1 XY 0\nedge 0 2\nend\n", 4),
    (
        b"vertex 0 XY 0\nvertex 1 XY 0\nedge 0 18446744073709551617\n",
        4,
    ),
    (
        b"vertex 0 XY 0\nvertex 1 XY 0\nvertex 2 XY 0\nedge 0 2\nedge 0 1\nend\n",
        6,
    ),
    (
        b"vertex 0 XY 0\nvertex 1 XY 0\nedge 0 1\nedge 0 1\nend\n",
        5,
    ),
    (
        b"vertex 0 XY 0\nvertex 1 XY 0\nedge 0 1\nvertex 2 XY 0\nend\n",
        5,
    ),
    (b"vertex 0 YZ 0\ninput 0 plain\nend\n", 3),
    (b"vertex 0 XY 0\ninput 1 plain\nend\n", 3),
    (b"vertex 0 XY 0\ninput 0 hadamard\nend\n", 3),
    (b"vertex 0 XY 0\ninput 0 plain\ninput 0 had\nend\n", 4),
    (b"vertex 0 XY 0\noutput 0 plain\noutput 0 had\nend\n", 4),
    (b"vertex 0 XY 0\noutput 0 plain\ninput 0 plain\nend\n", 4),
    (b"vertex 0 XY 0\nflow\norder\nend\n", 4),
    (b"vertex 0 XY 0\nflow\norder 0 0\nend\n", 4),
    (b"vertex 0 XY 0\noutput 0 plain\nflow\norder 0\nend\n", 5),
    (b"vertex 0 XY 0\nflow\ncorrect 0\nend\n", 4),
    (b"vertex 0 XY 0\nflow\norder 0\nend\n", 5),
    (
        b"vertex 0 XY 0\nvertex 1 XY 0\nflow\norder 0 1\ncorrect 1\ncorrect 0\nend\n",
        6,
    ),
    (
        b"vertex 0 XY 0\nvertex 1 XY 0\nflow\norder 0 1\ncorrect 0 1 1\ncorrect 1\nend\n",
        6,
    ),
    (
        b"vertex 0 XY 0\nvertex 1 XY 0\nflow\norder 0 1\ncorrect 0 2\ncorrect 1\nend\n",
        6,
    ),
    (b"end\nend\n", 3),
    (b"Vertex 0 XY 0\nend\n", 2),
    (
        b"vertex 0 XY 0\nvertex 1 XY 0\ninput 0 plain\nedge 0 1\nend\n",
        5,
    ),
    (b"vertex 0 XY 0\nflow\nend\n", 4),
    (b"vertex 0 XY 0\nflow\norder 0\norder 0\n", 5),
    (b"flow\norder\nflow\nend\n", 4),
];

// Why a text isn't read, if it isn't.
fn fault_of(alloc: Global, text: &[u8]) -> Option<TextError> {
    read_graph(alloc, text).err()
}

// The same where a flow is asked for.
fn fault_with_flow(alloc: Global, text: &[u8]) -> Option<TextError> {
    read_graph_with_flow(alloc, text).err()
}

// Whether the first line of a text that doesn't fit is this one.
fn is_wrong_at(alloc: Global, text: &[u8], line: usize) -> bool {
    fault_of(alloc, text) == Some(TextError::BadLine { line })
}

// The same of the lines below the first one of a text of version 2.
fn are_wrong_at(alloc: Global, others: &[u8], line: usize) -> Result<bool, AllocError> {
    let mut text = Vec::new(alloc);
    write_lines(&mut text, others)?;
    Ok(is_wrong_at(alloc, &text, line))
}

fn write_lines(text: &mut Vec<u8>, others: &[u8]) -> Result<(), AllocError> {
    text.extend_from_slice(b"zxg 2\n")?;
    text.extend_from_slice(others)
}

#[test]
fn each_rule_has_its_line(rt: HostRuntime) -> Result<(), AllocError> {
    for (row, (others, line)) in WRONG.iter().enumerate() {
        assert!(rt; are_wrong_at(rt.alloc(), others, *line)?, "row {row}");
    }
    Ok(())
}

// Writes a line on a vertex.
fn write_line(
    alloc: Global,
    text: &mut Vec<u8>,
    word: &str,
    v: usize,
    rest: &str,
) -> Result<(), AllocError> {
    let line = format!(in alloc; "{word} {v} {rest}\n")?;
    text.extend_from_slice(line.as_bytes())
}

// Writes a file's first lines: 1,025 vertices, each with such an end.
fn write_ends(alloc: Global, text: &mut Vec<u8>, word: &str) -> Result<(), AllocError> {
    text.extend_from_slice(b"zxg 2\n")?;
    for v in 0..1025 {
        write_line(alloc, text, "vertex", v, "XY 0")?;
    }
    for v in 0..1025 {
        write_line(alloc, text, word, v, "had")?;
    }
    Ok(())
}

// Whether the last end of such a file is the first that doesn't fit.
fn is_wrong_at_last(alloc: Global, word: &str) -> Result<bool, AllocError> {
    let mut text = Vec::new(alloc);
    write_ends(alloc, &mut text, word)?;
    Ok(is_wrong_at(alloc, &text, 1 + 1025 + 1025))
}

#[test]
fn a_file_has_1024_inputs_and_outputs_at_most(rt: HostRuntime) -> Result<(), AllocError> {
    assert!(rt; is_wrong_at_last(rt.alloc(), "input")?);
    assert!(rt; is_wrong_at_last(rt.alloc(), "output")?);
    Ok(())
}

#[test]
fn version_1_has_eight_phases(rt: HostRuntime) {
    assert!(rt; fault_of(rt.alloc(), b"zxg 1\nvertex 0 XY 7\nend\n").is_none());
    assert!(rt; is_wrong_at(rt.alloc(), b"zxg 1\nvertex 0 XY 8\nend\n", 2));
}

#[test]
fn a_file_without_a_flow_may_be_refused(rt: HostRuntime) {
    let text = b"zxg 2\nvertex 0 XY 0\noutput 0 had\nend\n".as_slice();
    assert!(rt; fault_of(rt.alloc(), text).is_none());
    assert!(rt; fault_with_flow(rt.alloc(), text) == Some(TextError::BadLine { line: 4 }));
}

// Whether the graph of a file with a flow is written anew so.
fn is_rewritten(alloc: Global, text: &[u8], wanted: &[u8]) -> Result<bool, AllocError> {
    match read_graph_with_flow(alloc, text) {
        Ok((graph, _table)) => is_written(alloc, &graph, wanted),
        Err(_fault) => Ok(false),
    }
}

// Files with their flows, the phases of the first in eighth turns, and the files of the graphs alone.
const WITH_FLOWS: [(&[u8], &[u8]); 2] = [
    (
        b"zxg 1\nvertex 0 XY 6\nvertex 1 YZ 7\nedge 0 1\ninput 0 plain\noutput 0 had\nflow\norder 1\ncorrect 1 1\nend\n",
        b"zxg 2\nvertex 0 XY 12\nvertex 1 YZ 14\nedge 0 1\ninput 0 plain\noutput 0 had\nend\n",
    ),
    (
        b"zxg 2\nvertex 0 XY 0\nvertex 1 XY 4\nedge 0 1\ninput 0 plain\noutput 1 had\nflow\norder 0\ncorrect 0 1\nend\n",
        b"zxg 2\nvertex 0 XY 0\nvertex 1 XY 4\nedge 0 1\ninput 0 plain\noutput 1 had\nend\n",
    ),
];

#[test]
fn files_are_read_with_their_flows(rt: HostRuntime) -> Result<(), AllocError> {
    for (row, (text, wanted)) in WITH_FLOWS.iter().enumerate() {
        assert!(rt; is_rewritten(rt.alloc(), text, wanted)?, "row {row}");
    }
    Ok(())
}

// Texts with first lines, each with the first line that doesn't fit.
const FIRST: [(&[u8], usize); 4] = [
    (b"", 1),
    (b"zxg 2", 1),
    (b"zxg 3\nend\n", 1),
    (b"zxg 2\nend\nend\n", 3),
];

#[test]
fn the_first_line_is_that_of_a_version(rt: HostRuntime) {
    for (row, (text, line)) in FIRST.iter().enumerate() {
        assert!(rt; is_wrong_at(rt.alloc(), text, *line), "row {row}");
    }
    assert!(rt; fault_of(rt.alloc(), b"zxg 1\nend\n").is_none());
}
