// The search for the least map: facets of the second complex in order, and orders of their labels.
ghost use Rattle.std.specs.Prelude.{◌≡◌, ◌<◌, ◌&&◌, not, true, ℕ, Bool, List, [], IfNone, IfOk, IfSome, length, slice_index};
ghost use Rattle.complex_core.specs.Labels.{has};
ghost use Rattle.complex_core.specs.Complexes.{is_facet};
ghost use Rattle.pseudo_test.specs.Ridges.{Thin};
ghost use Rattle.pseudo_test.specs.Chains.{StronglyConnected};
ghost use Rattle.facet_iso.specs.Isomorphisms.{IsLeastMap, NoMap};
ghost use Rattle.facet_iso.specs.Searches.{alike, IsBegun, IsLeastBegun, IsSearch, IsSound, NoneBegins};

use crate::degrees::degrees;
use crate::trial::map_of;
use crate::walk::{Step, walk_over};
use complex_core::{Complex, Face, VertexMap};
use pseudo_test::all_incidences;
use std::alloc::{AllocError, Global};

/// What a search knows of two complexes.
#[derive(Drop)]
pub(crate) struct Search {
    /// The least facet of the first.
    pub least: Face,
    /// The walk over the first from there.
    pub steps: Vec<Step>,
    /// The degrees of the labels of both.
    pub first_degrees: Vec<usize>,
    pub second_degrees: Vec<usize>,
    /// The incidences of the second.
    pub incidences: Vec<(Face, u16)>,
}

impl Search {
    /// Looks at both complexes once.
    pub(crate) fn new(
        alloc: Global,
        first: &Complex,
        second: &Complex,
    ) -> Result<Search, AllocError>
        requires strong { StronglyConnected first.now.facets }
        requires thin { Thin second.now.facets }
        requires dim { first.now.dim ≡ second.now.dim }
        ensures { IfOk result (IsSearch first.now second.now) }
    {
        Ok(Search {
            least: first.facets()[0],
            steps: walk_over(alloc, first)?,
            first_degrees: degrees(alloc, first)?,
            second_degrees: degrees(alloc, second)?,
            incidences: all_incidences(alloc, second)?,
        })
    }

    /// Whether a label of the first complex and one of the second have the same degree.
    pub(crate) fn alike(&self, label: u16, image: u16) -> bool
        requires { IsSound self.now }
        ensures { result ≡ alike self.now label image }
    {
        self.first_degrees[usize::from(label)] == self.second_degrees[usize::from(image)]
    }

    // Whether a label can be the next one of an ordered image that begins like this.
    fn may_follow(&self, order: &[u16], label: u16) -> bool
        requires sound { IsSound self.now }
        requires more { length order.now < length self.now.least }
        ensures { result ≡ (not (has order.now label) && alike self.now (slice_index self.now.least (length order.now)) label) }
    {
        !order.contains(&label) && self.alike(self.least.label(order.len()), label)
    }
}

/// The least map from the first complex to the second.
pub(crate) fn least_map(
    alloc: Global,
    first: &Complex,
    second: &Complex,
) -> Result<Option<VertexMap>, AllocError>
    requires strong { StronglyConnected first.now.facets }
    requires thin { Thin second.now.facets }
    requires dim { first.now.dim ≡ second.now.dim }
    ensures least { IfOk result (λ m. IfSome m (IsLeastMap first.now second.now)) }
    ensures none { IfOk result (λ m. IfNone m (NoMap first.now second.now)) }
{
    let search = Search::new(alloc, first, second)?;
    let mut order = Vec::new(alloc);
    for facet in second.facets() {
        if let Some(map) = least_from(alloc, first, second, &search, facet, &mut order)? {
            return Ok(Some(map));
        }
    }
    Ok(None)
}

// The least map to a facet whose ordered image begins like this. Labels that can't follow are passed over.
fn least_from(
    alloc: Global,
    first: &Complex,
    second: &Complex,
    search: &Search,
    facet: &Face,
    order: &mut Vec<u16>,
) -> Result<Option<VertexMap>, AllocError>
    requires search { IsSearch first.now second.now search.now }
    requires facet { is_facet second.now.facets facet.now ≡ true }
    requires begun { IsBegun facet.now order.old.items }
    ensures least { IfOk result (λ m. IfSome m (IsLeastBegun first.now second.now facet.now order.old.items)) }
    ensures none { IfOk result (λ m. IfNone m (NoneBegins first.now second.now facet.now order.old.items)) }
    ensures back { IfOk result (λ m. IfNone m (order.new.items ≡ order.old.items)) }
{
    if order.len() == search.least.len() {
        return map_of(alloc, first, second, search, facet, order);
    }
    for label in facet.labels().as_slice() {
        if !search.may_follow(order, *label) {
            continue;
        }
        order.push(*label)?;
        if let Some(map) = least_from(alloc, first, second, search, facet, order)? {
            return Ok(Some(map));
        }
        order.pop();
    }
    Ok(None)
}
