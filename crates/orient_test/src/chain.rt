// The closed chain along which signs contradict each other.
ghost use Rattle.std.specs.Prelude.{◌<◌, ℕ, List, IfOk, length};
ghost use Rattle.orient_test.specs.Walks.{IsChain, IsClash};
ghost use Rattle.orient_test.specs.Spreads.{at, IsTree, ComeEarlier, Contradicts};

use crate::search::Reached;
use complex_core::Face;
use std::alloc::{AllocError, Global};

// From the first facet to the one at the first position, over to the one at the second position, and
// back.
pub(crate) fn closed_chain(
    alloc: Global,
    reached: &[Reached],
    there: usize,
    back: usize,
) -> Result<Vec<Face>, AllocError>
    requires earlier { ComeEarlier reached.now }
    requires there { there < length reached.now }
    requires back { back < length reached.now }
    ensures { IfOk result (λ v. (facets : List (List ℕ)) → IsTree facets reached.now → Contradicts facets reached.now there back → IsClash facets v.items) }
{
    let mut chain = path(alloc, reached, there)?;
    chain.reverse();
    let rest = path(alloc, reached, back)?;
    chain.extend_from_slice(&rest)?;
    Ok(chain)
}

// From the facet at a position to the first one.
fn path(alloc: Global, reached: &[Reached], position: usize) -> Result<Vec<Face>, AllocError>
    requires earlier { ComeEarlier reached.now }
    requires inside { position < length reached.now }
    ensures { IfOk result (λ v. (facets : List (List ℕ)) → IsTree facets reached.now → IsChain facets (at reached.now position).facet (at reached.now 0).facet (at reached.now position).turned v.items) }
{
    let mut path = Vec::new(alloc);
    let mut position = position;
    while position != 0 {
        path.push(reached[position].facet)?;
        position = reached[position].from;
    }
    path.push(reached[0].facet)?;
    Ok(path)
}
