//! Searches of the links of all vertices.

ghost use Rattle.std.specs.Prelude.{◌≤◌, IfOk, length};
ghost use Rattle.pseudo_test.specs.Ridges.{Closed};
ghost use Rattle.sphere_search.specs.Searches.{Answers, ShowsSphere, UsesAtMost};
ghost use Rattle.link_check.specs.LinkSearches.{CanSearchLinks, ShowsLinks, LeavesOpen, LinksAre};
ghost use Rattle.round_run.specs.Gates.{Rise};
ghost use Rattle.round_run.specs.Reports.{IsUndecided};
ghost use Rattle.link_search.specs.Counts.{searched_quits, links_quits};

use anneal_plan::Plan;
use complex_core::Complex;
use held_stars::Gate;
use link_check::{Links, all_flags, file, link_of, links_of};
use round_run::{Report, SphereFound, search_sphere};
use sphere_search::Searched;
use std::alloc::{AllocError, Global};
use std::marker::Send;
use std::thread::Threads;

// Searches a link, unless it has dimension 0: then it is two points, a boundary without flips.
fn search_link<R: Threads + Sync, G: Gate + Send>(
    rt: &R,
    alloc: Global,
    link: &Complex,
    plan: &Plan,
    gates: &mut [G],
) -> Result<Searched<Report>, AllocError>
    requires closed { Closed link.now.facets }
    requires labels { UsesAtMost 60000 link.now }
    requires gates { plan.now.workers ≤ length gates.old }
    ensures answers { IfOk result (Answers (ShowsSphere link.now) (λ r. IsUndecided link.now plan.now r)) }
    ensures quits { IfOk result (λ s. Rise (λ g. G.quits g) gates.old gates.new (searched_quits s)) }
    ensures later { Rise (λ g. G.quits g) gates.old gates.new (λ _. 0) }
{
    if link.dim() == 0 {
        return Ok(Searched::Found(Vec::new(alloc)));
    }
    plan.keeps_limits();
    match search_sphere(rt, alloc, link, plan, gates)? {
        SphereFound::Sphere(report) => Ok(Searched::Found(report.named_flips(alloc)?)),
        SphereFound::Undecided(report) => Ok(Searched::Gave(report)),
    }
}

/// Searches the link of each vertex, in rising order, for legal flips that lead it to the boundary of
/// a simplex, each by the whole plan: a descent, and then, until a descent ends there, as many rounds
/// as the plan has, each with a descent behind it.
///
/// The complex is closed, has dimension 1 or more and no bad link, and none of its labels is above
/// 60,000. Where links stay undecided, the reports of their searches are told, and the links of all
/// other vertices have flips. Worker w of each round asks the gate at place w - 1.
///
/// # Errors
/// `AllocError` where there isn't enough memory.
pub fn search_links<R: Threads + Sync, G: Gate + Send>(
    rt: &R,
    alloc: Global,
    complex: &Complex,
    plan: &Plan,
    gates: &mut [G],
) -> Result<Links<Report>, AllocError>
    requires links { CanSearchLinks complex.now }
    requires gates { plan.now.workers ≤ length gates.old }
    ensures answers { IfOk result (LinksAre (ShowsLinks complex.now) (LeavesOpen complex.now (λ k r. IsUndecided k plan.now r))) }

    // Over all links that stay undecided a worker quits at most as often as the count of its gate
    // rose.
    ensures quits { IfOk result (λ l. Rise (λ g. G.quits g) gates.old gates.new (links_quits l)) }
    ensures later { Rise (λ g. G.quits g) gates.old gates.new (λ _. 0) }
{
    let flags = all_flags(alloc, complex, 1)?;
    let vertices = complex.labels()?;
    let mut lists = Vec::new(alloc);
    let mut left = Vec::new(alloc);
    for vertex in vertices.as_slice() {
        let link = link_of(alloc, &flags, *vertex)?;
        let searched = search_link(rt, alloc, &link, plan, gates)?;
        file(*vertex, searched, &mut lists, &mut left)?;
    }
    Ok(links_of(lists, left))
}
