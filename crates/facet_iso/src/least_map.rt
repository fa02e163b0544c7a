// The least map that takes one complex to another.
ghost use Rattle.std.specs.Prelude.{◌≡◌, ◌↔◌, IsTrue, IfErr, IfNone, IfOk, IfSome, OnOk};
ghost use Rattle.facet_iso.specs.Isomorphisms.{IsFit, IsLeastMap, IsOneLeastMap, NoMap};
ghost use Rattle.facet_iso.specs.IsoFaults.{IsoRefused};
ghost use Rattle.facet_iso.specs.declared.least_map.IsoFault.TheVariants.{Memory};

use crate::search::least_map;
use complex_core::{Complex, VertexMap};
use pseudo_test::{strong, thin};
use std::alloc::{AllocError, Global};

/// Why it isn't told whether a map takes one complex to another.
#[derive(Clone, Copy, Debug, PartialEq, Eq)]
pub enum IsoFault {
    /// The complex of this number, 1 or 2, is the first that isn't strongly connected or has a
    /// ridge in more than two facets.
    Unfit(u32),
    /// There is no memory left.
    Memory,
}

impl From<AllocError> for IsoFault {
    ghost from_gives = { λ _ e. e ≡ Memory };

    fn from(_: AllocError) -> Self {
        IsoFault::Memory
    }
}

/// The least map that takes the first complex to the second. `None` exactly where there is none.
///
/// Maps are compared by the facets that the first complex's least facet becomes, and then by the
/// images of its labels, in their order.
pub fn isomorphism(
    alloc: Global,
    first: &Complex,
    second: &Complex,
) -> Result<Option<VertexMap>, IsoFault>
    ensures least { IfOk result (λ m. IfSome m (IsLeastMap first.now second.now)) }
    ensures one { IfOk result (λ m. IfSome m (IsOneLeastMap first.now second.now)) }
    ensures none { IfOk result (λ m. IfNone m (NoMap first.now second.now)) }
    ensures fit { OnOk result (IsFit first.now × IsFit second.now) }
    ensures unfit { IfErr result (IsoRefused first.now second.now) }
{
    if !is_fit(alloc, first)? {
        return Err(IsoFault::Unfit(1));
    }
    if !is_fit(alloc, second)? {
        return Err(IsoFault::Unfit(2));
    }
    // No map changes these numbers.
    if first.dim() != second.dim() {
        return Ok(None);
    }
    if first.facets().len() != second.facets().len() {
        return Ok(None);
    }
    Ok(least_map(alloc, first, second)?)
}

// Whether any two facets are joined, and each ridge lies in at most two.
fn is_fit(alloc: Global, complex: &Complex) -> Result<bool, AllocError>
    ensures { IfOk result (λ fit. IsTrue fit ↔ IsFit complex.now) }
{
    if !thin(alloc, complex)? {
        return Ok(false);
    }
    Ok(strong(alloc, complex)?.is_none())
}
