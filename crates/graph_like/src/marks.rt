//! The change of colour: how many Hadamards a wire carries, those of X spiders at its ends counted.

ghost use Rattle.std.specs.Prelude.{◌≡◌, ◌<◌, length};
ghost use Rattle.zx_diagram.specs.Sum.{edge_mark, leg_mark, is_X_at};

use zx_diagram::{Colour, Leg, Spider, Wire};

// Whether a spider is an X spider.
fn is_x(spiders: &[Spider], number: usize) -> bool
    requires { number < length spiders.now }
    ensures { result ≡ is_X_at spiders.now number }
{
    spiders[number].colour == Colour::X
}

// Whether an edge carries an odd number of Hadamards.
pub(crate) fn edge_mark(spiders: &[Spider], edge: Wire) -> bool
    requires a_there { edge.a < length spiders.now }
    requires b_there { edge.b < length spiders.now }
    ensures { result ≡ edge_mark spiders.now edge }
{
    edge.hadamard ^ (is_x(spiders, edge.a) ^ is_x(spiders, edge.b))
}

// Whether an end carries an odd number of Hadamards.
pub(crate) fn leg_mark(spiders: &[Spider], leg: Leg) -> bool
    requires { leg.spider < length spiders.now }
    ensures { result ≡ leg_mark spiders.now leg }
{
    leg.hadamard ^ is_x(spiders, leg.spider)
}
