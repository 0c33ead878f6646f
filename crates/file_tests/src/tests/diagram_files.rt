//! A page of texts that aren't files, each rule of the format broken once, and files that are read.

use diagram_text::{TextError, read_diagram};
use std::alloc::{AllocError, Global};
use zx_diagram::{Colour, Diagram, Leg, Spider, Wire};
use zx_model::Sixteenth;

// Texts that aren't files, each with the first line that doesn't fit.
const WRONG: [(&[u8], usize); 38] = [
    (b"", 1),
    (b"zxd 2", 1),
    (b"zxd 3\nend\n", 1),
    (b"zxg 2\nend\n", 1),
    (b"zxd 2\n", 2),
    (b"zxd 2\nend", 2),
    (b"zxd 2\n\nend\n", 2),
    (b"zxd 2\nend\nend\n", 3),
    (b"zxd 2\nend\n ", 3),
    (b"zxd 2\nflow\nend\n", 2),
    (b"zxd 2\nend of file\n", 2),
    (b"zxd 2\nspider 1 Z 0\nend\n", 2),
    (b"zxd 2\nspider 00 Z 0\nend\n", 2),
    (b"zxd 2\nspider 18446744073709551616 Z 0\nend\n", 2),
    (b"zxd 2\nspider 0 Y 0\nend\n", 2),
    (b"zxd 2\nspider 0 Z 16\nend\n", 2),
    (b"zxd 1\nspider 0 Z 8\nend\n", 2),
    (b"zxd 2\nspider 0 Z +1\nend\n", 2),
    (b"zxd 2\nspider 0  Z 0\nend\n", 2),
    (b"zxd 2\nspider 0 Z 0 \nend\n", 2),
    (b"zxd 2\nspider 0 Z 0\r\nend\n", 2),
    (b"zxd 2\nspider 0 Z\nend\n", 2),
    (b"zxd 2\nspider 0 Z 0\nspider 0 X 0\nend\n", 3),
    (b"zxd 2\nspider 0 Z 0\nedge 0 1 plain\nend\n", 3),
    (b"zxd 2\nspider 0 Z 0\nedge 0 0\nend\n", 3),
    (b"zxd 2\nspider 0 Z 0\nedge 0 0 hadamard\nend\n", 3),
    (b"zxd 2\nspider 0 Z 0\nedge 0 0 plain\nspider 1 Z 0\n", 4),
    (
        b"zxd 2\nspider 0 Z 0\nspider 1 Z 0\nedge 1 0 plain\nend\n",
        4,
    ),
    (
        b"zxd 2\nspider 0 Z 0\nspider 1 Z 0\nedge 0 1 plain\nedge 0 0 plain\nend\n",
        5,
    ),
    (
        b"zxd 2\nspider 0 Z 0\nspider 1 Z 0\nedge 1 1 plain\nedge 0 1 plain\nend\n",
        5,
    ),
    (
        b"zxd 2\nspider 0 Z 0\nedge 0 0 had\nedge 0 0 plain\nend\n",
        4,
    ),
    (b"zxd 2\nspider 0 Z 0\ninput 1 plain\nend\n", 3),
    (b"zxd 2\nspider 0 Z 0\ninput 0\nend\n", 3),
    (b"zxd 2\nspider 0 Z 0\ninput 0 plain\nspider 1 Z 0\n", 4),
    (b"zxd 2\nspider 0 Z 0\ninput 0 plain\nedge 0 0 had\n", 4),
    (b"zxd 2\nspider 0 Z 0\noutput 1 had\nend\n", 3),
    (b"zxd 2\nspider 0 Z 0\noutput 0 had\ninput 0 had\n", 4),
    (
        b"zxd 2\nspider 0 Z 0\noutput 18446744073709551616 had\nend\n",
        3,
    ),
];

// Why a text isn't read, if it isn't.
fn fault_of(alloc: Global, text: &[u8]) -> Option<TextError> {
    read_diagram(alloc, text).err()
}

// Whether the first line of a text that doesn't fit is this one.
fn is_wrong_at(alloc: Global, text: &[u8], line: usize) -> bool {
    fault_of(alloc, text) == Some(TextError::BadLine { line })
}

#[test]
fn each_rule_has_its_line(rt: HostRuntime) {
    for (row, (text, line)) in WRONG.iter().enumerate() {
        assert!(rt; is_wrong_at(rt.alloc(), text, *line), "row {row}");
    }
}

fn leg(spider: usize) -> Leg {
    Leg {
        spider,
        hadamard: false,
    }
}

fn spider(colour: Colour, phase: Sixteenth) -> Spider {
    Spider { colour, phase }
}

// A Z spider with a phase of one eighth turn, joined to an X spider.
fn is_worked_diagram(diagram: &Diagram) -> bool {
    let first = spider(Colour::Z, Sixteenth::new(2));
    let second = spider(Colour::X, Sixteenth::new(0));
    let edge = Wire {
        a: 0,
        b: 1,
        hadamard: false,
    };
    diagram.spiders() == [first, second].as_slice()
        && diagram.edges() == [edge].as_slice()
        && diagram.inputs() == [leg(0)].as_slice()
        && diagram.outputs() == [leg(1)].as_slice()
}

// Whether it is read from a text.
fn has_worked_diagram(alloc: Global, text: &[u8]) -> bool {
    match read_diagram(alloc, text) {
        Ok(diagram) => is_worked_diagram(&diagram),
        Err(_fault) => false,
    }
}

#[test]
fn a_diagram_is_read_in_both_versions(rt: HostRuntime) {
    let eighths =
        b"zxd 1\nspider 0 Z 1\nspider 1 X 0\nedge 0 1 plain\ninput 0 plain\noutput 1 plain\nend\n".as_slice();
    let sixteenths =
        b"zxd 2\nspider 0 Z 2\nspider 1 X 0\nedge 0 1 plain\ninput 0 plain\noutput 1 plain\nend\n".as_slice();
    assert!(rt; has_worked_diagram(rt.alloc(), eighths));
    assert!(rt; has_worked_diagram(rt.alloc(), sixteenths));
}

#[test]
fn edges_may_be_parallel_and_ends_anywhere(rt: HostRuntime) {
    let text =
        b"zxd 2\nspider 0 Z 15\nedge 0 0 plain\nedge 0 0 plain\nedge 0 0 had\nedge 0 0 had\ninput 0 had\ninput 0 plain\noutput 0 plain\noutput 0 had\nend\n".as_slice();
    assert!(rt; fault_of(rt.alloc(), text).is_none());
    assert!(rt; fault_of(rt.alloc(), b"zxd 1\nend\n").is_none());
}

// Writes a file of a spider with so many inputs.
fn write_inputs(text: &mut Vec<u8>, inputs: usize) -> Result<(), AllocError> {
    text.extend_from_slice(b"zxd 2\nspider 0 Z 0\n")?;
    for _ in 0..inputs {
        text.extend_from_slice(b"input 0 plain\n")?;
    }
    text.extend_from_slice(b"end\n")
}

// Why it isn't read, if it isn't.
fn fault_of_inputs(alloc: Global, inputs: usize) -> Result<Option<TextError>, AllocError> {
    let mut text = Vec::new(alloc);
    write_inputs(&mut text, inputs)?;
    Ok(fault_of(alloc, &text))
}

#[test]
fn a_file_has_at_most_1024_inputs(rt: HostRuntime) -> Result<(), AllocError> {
    let first_above = Some(TextError::BadLine { line: 1027 });
    assert!(rt; fault_of_inputs(rt.alloc(), 1024)?.is_none());
    assert!(rt; fault_of_inputs(rt.alloc(), 1025)? == first_above);
    Ok(())
}
