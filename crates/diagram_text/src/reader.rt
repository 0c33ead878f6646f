//! A diagram file taken in line by line.

ghost use Rattle.std.specs.Prelude.{◌≡◌, true, IfOk};
ghost use Rattle.zx_text.specs.Versions.{version_named};
ghost use Rattle.diagram_text.specs.Reading.{may_precede};
ghost use Rattle.diagram_text.specs.Internal.Stepping.{diagram_step, line_step, follows};
ghost use Rattle.diagram_text.specs.Internal.Stepping.{spider_fits, edge_fits, input_fits, output_fits};
ghost use Rattle.diagram_text.specs.Internal.Stepping.{spider_added, edge_added, input_added, output_added};

use crate::line::Line;
use std::alloc::AllocError;
use zx_diagram::{Colour, Diagram, Leg, Wire};
use zx_text::Version;

// How many inputs a file may have, and how many outputs.
const MOST_ENDS: usize = 1024;

// What the lines so far say.
#[derive(Drop)]
pub(crate) enum Reader {
    // Before the last line.
    Open(Diagram),
    // Behind it.
    Over(Diagram),
}

// What one more line leads to, if it fits.
pub(crate) fn taken(
    version: Version,
    reader: Reader,
    line: &Line,
) -> Result<Option<Reader>, AllocError>
    ensures { IfOk result (λ next. next ≡ diagram_step (version_named version) reader line.now) }
{
    match reader {
        Reader::Open(diagram) => line_taken(version, diagram, line),
        Reader::Over(_diagram) => Ok(None),
    }
}

// The same before the last line.
fn line_taken(
    version: Version,
    mut diagram: Diagram,
    line: &Line,
) -> Result<Option<Reader>, AllocError>
    ensures { IfOk result (λ next. next ≡ line_step (version_named version) diagram line.now) }
{
    let fits = match line {
        Line::Spider {
            number,
            colour,
            phase,
        } => add_spider(&mut diagram, version, *number, *colour, *phase)?,
        Line::Edge(wire) => add_edge(&mut diagram, wire)?,
        Line::Input(leg) => add_input(&mut diagram, leg)?,
        Line::Output(leg) => add_output(&mut diagram, leg)?,
        Line::End => return Ok(Some(Reader::Over(diagram))),
    };
    if fits {
        Ok(Some(Reader::Open(diagram)))
    } else {
        Ok(None)
    }
}

// Adds a spider, and tells whether its line fits.
fn add_spider(
    diagram: &mut Diagram,
    version: Version,
    number: usize,
    colour: Colour,
    phase: usize,
) -> Result<bool, AllocError>
    ensures fits { IfOk result (λ fits.
        fits ≡ spider_fits (version_named version) diagram.old number phase) }
    ensures added { IfOk result (λ fits. fits ≡ true →
        diagram.new ≡ spider_added (version_named version) diagram.old colour phase) }
{
    let Some(turns) = version.phase(phase) else {
        return Ok(false);
    };
    let fits = number == diagram.spiders().len()
        && diagram.edges().is_empty()
        && diagram.inputs().is_empty()
        && diagram.outputs().is_empty();
    if fits {
        diagram.add_spider(colour, turns)?;
    }
    Ok(fits)
}

// Adds an edge, and tells whether its line fits.
fn add_edge(diagram: &mut Diagram, wire: &Wire) -> Result<bool, AllocError>
    ensures fits { IfOk result (λ fits. fits ≡ edge_fits diagram.old wire.now) }
    ensures added { IfOk result (λ fits. fits ≡ true → diagram.new ≡ edge_added diagram.old wire.now) }
{
    let fits = wire.a <= wire.b
        && wire.b < diagram.spiders().len()
        && may_follow(diagram.edges(), wire)
        && diagram.inputs().is_empty()
        && diagram.outputs().is_empty();
    if fits {
        diagram.add_edge(wire.a, wire.b, wire.hadamard)?;
    }
    Ok(fits)
}

// Whether an edge may stand behind the last one of these.
fn may_follow(edges: &[Wire], wire: &Wire) -> bool
    ensures { result ≡ follows edges.now wire.now }
{
    match edges.last() {
        Some(last) => comes_before(last, wire),
        None => true,
    }
}

// Whether an edge may stand right before another.
fn comes_before(wire: &Wire, next: &Wire) -> bool
    ensures { result ≡ may_precede wire.now next.now }
{
    wire.a < next.a
        || (wire.a == next.a
            && (wire.b < next.b || (wire.b == next.b && (!wire.hadamard || next.hadamard))))
}

// Adds an input, and tells whether its line fits.
fn add_input(diagram: &mut Diagram, leg: &Leg) -> Result<bool, AllocError>
    ensures fits { IfOk result (λ fits. fits ≡ input_fits diagram.old leg.now) }
    ensures added { IfOk result (λ fits. fits ≡ true → diagram.new ≡ input_added diagram.old leg.now) }
{
    let fits = leg.spider < diagram.spiders().len()
        && diagram.inputs().len() < MOST_ENDS
        && diagram.outputs().is_empty();
    if fits {
        diagram.add_input(leg.spider, leg.hadamard)?;
    }
    Ok(fits)
}

// Adds an output, and tells whether its line fits.
fn add_output(diagram: &mut Diagram, leg: &Leg) -> Result<bool, AllocError>
    ensures fits { IfOk result (λ fits. fits ≡ output_fits diagram.old leg.now) }
    ensures added { IfOk result (λ fits. fits ≡ true → diagram.new ≡ output_added diagram.old leg.now) }
{
    let fits = leg.spider < diagram.spiders().len() && diagram.outputs().len() < MOST_ENDS;
    if fits {
        diagram.add_output(leg.spider, leg.hadamard)?;
    }
    Ok(fits)
}
