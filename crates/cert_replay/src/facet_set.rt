// The facets of a complex in one ordered set.
ghost use Rattle.std.specs.Prelude.{◌≡◌, ◌<◌, ◌∷◌, [], length, map, IfOk, OnOk, IfErr, Ok};
ghost use Rattle.std.specs.List.Sorted.{IsStrictlySortedBy};
ghost use Rattle.complex_core.specs.Labels.{face_cmp};
ghost use Rattle.complex_core.specs.Complexes.{ComplexView, over};
ghost use Rattle.flip_rules.specs.Flips.{broken_rule, flipped, CanPut, FlipRefused, OfFaces};
ghost use Rattle.std.specs.BTreeSet.{IsOrdered};
ghost use Rattle.cert_replay.specs.Rows.{row_cmp, facets_at, Puts, Takes};

use complex_core::{Complex, ComplexFault, Face};
use flip_rules::{FewFaces, Flip, FlipFault, check_near};
use std::alloc::{AllocError, Global};
use std::collections::BTreeSet;
use std::marker::Model;

// A label, and a facet that has it.
type Row = (u32, Face);

// The facets of a complex as rows, one for each facet and each of its labels, in one ordered set.
// Contracts see the complex.
#[derive(Drop)]
pub(crate) struct FacetSet {
    dim: u32,
    rows: BTreeSet<Row>,
}

impl Model for FacetSet {
    ghost use Rattle.complex_core.specs.Complexes.{ComplexView, IsComplex};
    ghost use Rattle.cert_replay.specs.Rows.{AreRowsOf, facets_in};

    ghost Value = { ComplexView };

    ghost view = { λ s. record { dim = s.dim; facets = facets_in s.rows } };

    ghost invariant = { λ s. AreRowsOf (facets_in s.rows) s.rows × IsComplex (record { dim = s.dim; facets = facets_in s.rows }) };
}

// Puts in a row for each label of a facet.
fn put_facet(rows: &mut BTreeSet<Row>, facet: &Face) -> Result<(), AllocError>
    ensures { OnOk result (Puts (facet.now ∷ []) rows.old rows.new) }
{
    for label in facet.labels().as_slice() {
        rows.insert((u32::from(*label), *facet))?;
    }
    Ok(())
}

// Takes out the rows of a facet.
fn take_facet(rows: &mut BTreeSet<Row>, facet: &Face)
    ensures { Takes (facet.now ∷ []) rows.old rows.new }
{
    for label in facet.labels().as_slice() {
        rows.remove(&(u32::from(*label), *facet));
    }
}

// Puts in the rows of some facets.
fn put_facets(rows: &mut BTreeSet<Row>, facets: &[Face]) -> Result<(), AllocError>
    ensures { OnOk result (Puts facets.now rows.old rows.new) }
{
    for facet in facets {
        put_facet(rows, facet)?;
    }
    Ok(())
}

// Takes out the rows of some facets.
fn take_facets(rows: &mut BTreeSet<Row>, facets: &[Face])
    ensures { Takes facets.now rows.old rows.new }
{
    for facet in facets {
        take_facet(rows, facet);
    }
}

// The facets of a label's rows that contain a set, in order.
fn rows_over(
    alloc: Global,
    rows: &BTreeSet<Row>,
    label: u16,
    set: &Face,
) -> Result<Vec<Face>, AllocError>
    ensures over { IfOk result (λ v. v.items ≡ over (facets_at label rows.now) set.now) }
    ensures ordered { IsOrdered row_cmp rows.now }
{
    let label = u32::from(label);
    rows.range((label, Face::new())..(label + 1, Face::new()))
        .map(|row| row.1)
        .filter(|facet| facet.holds(set))
        .collect(alloc)
}

// The facets of all rows, so each facet once for each of its labels.
fn all_facets(alloc: Global, rows: &BTreeSet<Row>) -> Result<Vec<Face>, AllocError>
    ensures { IfOk result (λ v. v.items ≡ map (λ r. r.1) rows.now.keys) }
{
    let mut facets = Vec::new(alloc);
    for row in rows {
        facets.push(row.1)?;
    }
    Ok(facets)
}

impl FacetSet {
    // The facets of a complex.
    pub(crate) fn of(alloc: Global, complex: &Complex) -> Result<FacetSet, AllocError>
        ensures { IfOk result (λ s. s ≡ complex.now) }
    {
        let mut rows = BTreeSet::new(alloc);
        put_facets(&mut rows, complex.facets())?;
        Ok(FacetSet {
            dim: complex.dim(),
            rows,
        })
    }

    // The facets that contain a set, rising. For the empty set there are none.
    fn over(&self, alloc: Global, set: &Face) -> Result<Vec<Face>, AllocError>
        ensures over { 0 < length set.now → IfOk result (λ v. v.items ≡ over self.now.facets set.now) }
        ensures rising { IfOk result (λ v. IsStrictlySortedBy face_cmp v.items) }
    {
        // Flips name new labels by greater numbers, so the greatest label tends to have few facets.
        match set.labels().last() {
            Some(label) => rows_over(alloc, &self.rows, *label, set),
            None => Ok(Vec::new(alloc)),
        }
    }

    // The facets that contain A, which a legal flip takes out, or why the flip isn't made.
    fn check(&self, alloc: Global, flip: &Flip) -> Result<Vec<Face>, FlipFault>
        ensures legal { OnOk result (broken_rule self.now flip.now.a flip.now.b ≡ Ok tt) }
        ensures out { IfOk result (λ v. v.items ≡ over self.now.facets flip.now.a) }
        ensures can { OnOk result (CanPut self.now.dim flip.now.a flip.now.b) }
        ensures faces { OnOk result (OfFaces flip.now) }
        ensures broken_rule { IfErr result (FlipRefused (broken_rule self.now flip.now.a flip.now.b)) }
    {
        let Ok(over_a) = self.over(alloc, &flip.a) else {
            return Err(FlipFault::Memory);
        };
        let Ok(over_b) = self.over(alloc, &flip.b) else {
            return Err(FlipFault::Memory);
        };
        match check_near(self.dim, &over_a, &over_b, flip) {
            Ok(()) => Ok(over_a),
            Err(illegal) => Err(FlipFault::Illegal(illegal)),
        }
    }

    // The facets after a flip, or why it isn't made: it breaks a rule, or for want of memory.
    pub(crate) fn flipped(self, alloc: Global, flip: &Flip) -> Result<FacetSet, FlipFault>
        ensures legal { OnOk result (broken_rule self flip.now.a flip.now.b ≡ Ok tt) }
        ensures ok { IfOk result (λ s. s ≡ flipped self flip.now.a flip.now.b) }
        ensures broken_rule { IfErr result (FlipRefused (broken_rule self flip.now.a flip.now.b)) }
    {
        let out = self.check(alloc, flip)?;
        let more = FewFaces::join_boundary(&flip.b, &flip.a);
        let FacetSet { dim, mut rows } = self;
        take_facets(&mut rows, &out);
        match put_facets(&mut rows, more.as_slice()) {
            Ok(()) => Ok(FacetSet { dim, rows }),
            Err(_) => Err(FlipFault::Memory),
        }
    }

    // The complex of these facets.
    pub(crate) fn complex(&self, alloc: Global) -> Result<Complex, AllocError>
        ensures { IfOk result (λ k. k ≡ self.now) }
    {
        let facets = all_facets(alloc, &self.rows)?;
        match Complex::from_facets(alloc, &facets) {
            Ok(complex) => Ok(complex),
            Err(ComplexFault::Memory) => Err(AllocError),
            // Some facet is left, and each has one label more than the dimension.
            Err(ComplexFault::Empty) => unreachable!(),
            Err(ComplexFault::Limit(_)) => unreachable!(),
            Err(ComplexFault::Mixed(_)) => unreachable!(),
        }
    }
}
