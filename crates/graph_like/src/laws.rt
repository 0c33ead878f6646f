//! Laws of the graph-like form.

ghost use Rattle.std.specs.Prelude.{◌≡◌, length};
ghost use Rattle.zx_model.specs.Proportional.{Proportional};
ghost use Rattle.zx_calculus.specs.Graph.{Graph};
ghost use Rattle.zx_calculus.specs.Sum.{graph_sum};
ghost use Rattle.zx_diagram.specs.Diagram.{Diagram, IsDiagram};
ghost use Rattle.zx_diagram.specs.Sum.{diagram_sum};
ghost use Rattle.graph_like.specs.LikeForm.{IsLikeForm};

/// A diagram has one graph-like form at most.
pub fn diagrams_have_one_like_form()
    ensures { (d : Diagram) (g h : Graph) → IsLikeForm d g → IsLikeForm d h → g ≡ h }
{}

/// The graph-like form of a diagram has its sum, up to a nonzero scalar.
pub fn like_form_keeps_sum()
    ensures { (d : Diagram) (g : Graph) → IsDiagram d → IsLikeForm d g →
        Proportional (length d.inputs) (length d.outputs) (diagram_sum d) (graph_sum g) }
{}
