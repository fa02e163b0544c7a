// The incidences of facets: each ridge with each label that makes a facet of it, in order.
ghost use Rattle.std.specs.Prelude.{◌≡◌, ◌++◌, IfOk, OnOk};
ghost use Rattle.std.specs.List.Sorted.{IsStrictlySortedBy};
ghost use Rattle.complex_core.specs.Rising.{rising};
ghost use Rattle.complex_core.specs.Complexes.{IsComplex};
ghost use Rattle.pseudo_test.specs.Incidences.{incidence_cmp, incidences_of, incidences, run_of};

use complex_core::{Complex, Face};
use std::alloc::{AllocError, Global};

/// The incidences of the facets: each ridge with each label that makes a facet of it, rising by
/// ridges and then by labels. The facets over one ridge are a run.
pub fn all_incidences(alloc: Global, complex: &Complex) -> Result<Vec<(Face, u16)>, AllocError>
    ensures incidences { IfOk result (λ v. v.items ≡ incidences complex.now.facets) }
    ensures rising { IfOk result (λ v. IsStrictlySortedBy incidence_cmp v.items) }
    ensures complex { IsComplex complex.now }
{
    let mut all = Vec::new(alloc);
    for facet in complex.facets() {
        add_incidences(&mut all, facet)?;
    }
    sort_incidences(&mut all);
    Ok(all)
}

/// The run of one ridge. It is found by two binary searches.
pub fn over<'a>(incidences: &'a [(Face, u16)], ridge: &Face) -> &'a [(Face, u16)]
    requires { IsStrictlySortedBy incidence_cmp incidences.now }
    ensures { result.now ≡ run_of incidences.now ridge.now }
{
    let start = incidences.partition_point(|incidence| incidence.0.cmp(ridge).is_lt());
    let rest = &incidences[start..];
    let end = rest.partition_point(|incidence| incidence.0.cmp(ridge).is_le());
    &rest[..end]
}

// Adds the incidences of a facet.
fn add_incidences(all: &mut Vec<(Face, u16)>, facet: &Face) -> Result<(), AllocError>
    ensures { OnOk result (all.new.items ≡ all.old.items ++ incidences_of facet.now) }
{
    for label in facet.labels().as_slice() {
        all.push((facet.without(*label), *label))?;
    }
    Ok(())
}

// Sorts incidences, and keeps each once.
fn sort_incidences(incidences: &mut Vec<(Face, u16)>)
    ensures incidences { incidences.new.items ≡ rising incidence_cmp incidences.old.items }
    ensures rising { IsStrictlySortedBy incidence_cmp incidences.new.items }
{
    incidences.sort_unstable();
    incidences.dedup();
}
