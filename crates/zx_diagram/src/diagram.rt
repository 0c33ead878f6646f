//! Diagrams.

ghost use Rattle.std.specs.Prelude.{◌≡◌, ◌<◌, ◌++◌, [], ◌∷◌, length, IfOk, OnOk, OnErr};
ghost use Rattle.zx_diagram.specs.Diagram.{IsDiagram};

use crate::spider::{Colour, Spider};
use crate::wire::{Leg, Wire};
use std::alloc::{AllocError, Global};
use std::marker::Model;
use zx_model::Sixteenth;

/// A diagram: spiders, named by their numbers from 0, edges between them, and inputs and outputs.
/// Two spiders may have any number of edges, a spider any number of inputs and outputs.
#[derive(Drop)]
pub struct Diagram {
    spiders: Vec<Spider>,
    edges: Vec<Wire>,
    inputs: Vec<Leg>,
    outputs: Vec<Leg>,
}

impl Model for Diagram {
    ghost use Rattle.zx_diagram.specs.Diagram.{Diagram as Seen, diagram_of, IsDiagram};

    ghost Value = { Seen };

    ghost view = { λ d. diagram_of d.spiders.items d.edges.items d.inputs.items d.outputs.items };

    ghost invariant = { λ d. IsDiagram (diagram_of d.spiders.items d.edges.items d.inputs.items d.outputs.items) };
}

impl Diagram {
    /// The diagram without spiders and ends.
    pub fn new(alloc: Global) -> Diagram
        ensures { result ≡ record { spiders = []; edges = []; inputs = []; outputs = [] } }
    {
        Diagram {
            spiders: Vec::new(alloc),
            edges: Vec::new(alloc),
            inputs: Vec::new(alloc),
            outputs: Vec::new(alloc),
        }
    }

    /// Adds a spider without edges and ends after all others, and answers its number. Where memory
    /// runs out the diagram stays as it was.
    pub fn add_spider(&mut self, colour: Colour, phase: Sixteenth) -> Result<usize, AllocError>
        ensures number { IfOk result (λ number. number ≡ length self.old.spiders) }
        ensures ok { OnOk result (self.new ≡ record self.old {
          spiders = self.old.spiders ++ record { colour = colour; phase = phase } ∷ [];
        }) }
        ensures err { OnErr result (self.new ≡ self.old) }
    {
        let number = self.spiders.len();
        self.spiders.push(Spider { colour, phase })?;
        Ok(number)
    }

    /// Adds an edge after all others. Where memory runs out the diagram stays as it was.
    pub fn add_edge(&mut self, a: usize, b: usize, hadamard: bool) -> Result<(), AllocError>
        requires a_there { a < length self.old.spiders }
        requires b_there { b < length self.old.spiders }
        ensures ok { OnOk result (self.new ≡ record self.old {
          edges = self.old.edges ++ record { a = a; b = b; hadamard = hadamard } ∷ [];
        }) }
        ensures err { OnErr result (self.new ≡ self.old) }
    {
        self.edges.push(Wire { a, b, hadamard })?;
        Ok(())
    }

    /// Adds an input after all others. Where memory runs out the diagram stays as it was.
    pub fn add_input(&mut self, s: usize, hadamard: bool) -> Result<(), AllocError>
        requires { s < length self.old.spiders }
        ensures ok { OnOk result (self.new ≡ record self.old {
          inputs = self.old.inputs ++ record { spider = s; hadamard = hadamard } ∷ [];
        }) }
        ensures err { OnErr result (self.new ≡ self.old) }
    {
        self.inputs.push(Leg {
            spider: s,
            hadamard,
        })?;
        Ok(())
    }

    /// Adds an output after all others. Where memory runs out the diagram stays as it was.
    pub fn add_output(&mut self, s: usize, hadamard: bool) -> Result<(), AllocError>
        requires { s < length self.old.spiders }
        ensures ok { OnOk result (self.new ≡ record self.old {
          outputs = self.old.outputs ++ record { spider = s; hadamard = hadamard } ∷ [];
        }) }
        ensures err { OnErr result (self.new ≡ self.old) }
    {
        self.outputs.push(Leg {
            spider: s,
            hadamard,
        })?;
        Ok(())
    }

    /// The spiders, in the order of their numbers.
    pub fn spiders(&self) -> &[Spider]
        ensures value { result.now ≡ self.now.spiders }
        ensures valid { IsDiagram self.now }
    {
        &self.spiders
    }

    /// The edges, in the order in which they were added.
    pub fn edges(&self) -> &[Wire]
        ensures value { result.now ≡ self.now.edges }
        ensures valid { IsDiagram self.now }
    {
        &self.edges
    }

    /// The inputs, in their order.
    pub fn inputs(&self) -> &[Leg]
        ensures value { result.now ≡ self.now.inputs }
        ensures valid { IsDiagram self.now }
    {
        &self.inputs
    }

    /// The outputs, in their order.
    pub fn outputs(&self) -> &[Leg]
        ensures value { result.now ≡ self.now.outputs }
        ensures valid { IsDiagram self.now }
    {
        &self.outputs
    }
}
