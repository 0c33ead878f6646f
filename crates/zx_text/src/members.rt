//! The members of a set in a file.

ghost use Rattle.std.specs.Prelude.{◌≡◌, ◌&&◌, true, false, ltb, IfOk, IfNone, IfSome};
ghost use Rattle.std.specs.List.{list_all};
ghost use Rattle.zx_calculus.specs.Graph.{in_order};

use open_graph::{VertexId, VertexSet};
use std::alloc::{AllocError, Global};

// The set of these numbers, if they rise and are below a bound.
pub(crate) fn rising_set(
    alloc: Global,
    numbers: &[usize],
    bound: usize,
) -> Result<Option<VertexSet>, AllocError>
    ensures some { IfOk result (λ found. IfSome found (λ set. set.ids ≡ numbers.now)) }
    ensures fits { IfOk result (λ found. IfSome found (λ set.
        (in_order ltb numbers.now && list_all (λ w. ltb w bound) numbers.now) ≡ true)) }
    ensures none { IfOk result (λ found. IfNone found
        ((in_order ltb numbers.now && list_all (λ w. ltb w bound) numbers.now) ≡ false)) }
{
    let mut set = VertexSet::new(alloc);
    let mut least = 0;
    for number in numbers {
        if *number < least {
            return Ok(None);
        }
        if *number >= bound {
            return Ok(None);
        }
        set.toggle(VertexId::new(*number))?;
        least = *number + 1;
    }
    // They come by rising id, as in the file.
    let _ids = set.iter();
    Ok(Some(set))
}
