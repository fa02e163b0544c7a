// Single tries, tries one after another, and tries in two threads.
use crate::sample::{
    Counting, Ended, Made, OCTAHEDRON, TETRAHEDRON, Told, attempted, committed_both, complex, flip,
};
use anneal_plan::{Phase, Plan, PlanFault};
use flip_rules::{Flip, Journal};
use held_stars::{Gate, OpenGate, Point};
use round_rules::Tried;
use std::alloc::Global;
use std::test::Fail;
use vertex_claims::Found;

// What eight words tell a try in a phase.
fn told(phase: Phase, words: [u32; 8]) -> Told {
    Told { phase, words }
}

// A plan for tries with at most two flips.
fn plan(tries: u32) -> Result<Plan, PlanFault> {
    Plan::new(1, 2, 1, tries, 3, 3, 2, 2)
}

// The flip of an entry that has one flip alone.
fn only_flip(journal: &Journal, number: usize) -> Option<Flip> {
    let entry = journal.entries().get(number)?;
    match entry.flips() {
        [flip] => Some(*flip),
        _ => None,
    }
}

// The answer of a try, where its first claim was, and what it found.
fn account(made: &Made, number: usize) -> Option<(Tried, u16, Found)> {
    let answer = made.answers.get(number)?;
    let mark = made.marks.list().get(number)?;
    Some((*answer, mark.place, mark.found))
}

// What one try leaves on a board: its answer, whether it has a mark, its entry, and the facets.
#[derive(Clone, Copy)]
struct Left {
    answer: Option<Tried>,
    marked: bool,
    entries: usize,
    flip: Option<Flip>,
    facets: usize,
}

fn look_at(made: &Made, ended: &Ended) -> Left {
    Left {
        answer: made.answers.get(0).copied(),
        marked: !made.marks.list().is_empty(),
        entries: ended.journal.entries().len(),
        flip: only_flip(&ended.journal, 0),
        facets: ended.end.facets().len(),
    }
}

// One try on a new board.
fn tried<G: Gate>(
    alloc: Global,
    sets: &[&[u16]],
    places: u16,
    told: Told,
    gate: &mut G,
) -> Result<Left, Fail> {
    let plan = plan(1)?;
    let start = complex(alloc, sets)?;
    let (made, ended) = attempted(alloc, &start, places, &plan, &[told], gate)?;
    if ended.journal.entries().is_empty() && ended.end.facets() != start.facets() {
        return Err(Fail::new("the stars were changed without an entry"));
    }
    Ok(look_at(&made, &ended))
}

#[test]
fn a_try_commits_or_leaves_all_as_it_was(rt: HostRuntime) -> Result<(), Fail> {
    let zeros = told(Phase::Heat, [0; 8]);
    let one = tried(rt.alloc(), &OCTAHEDRON, 8, zeros, &mut OpenGate)?;
    assert!(rt; one.answer == Some(Tried::Committed(0)));
    assert!(rt; one.entries == 1 && one.facets == 10);
    assert!(rt; one.flip == Some(flip(&[1, 2, 3], &[7])?));
    let two_turns = told(Phase::Heat, [0, 0, 0, 0, 0, 0, 0, 1]);
    let two = tried(rt.alloc(), &OCTAHEDRON, 8, two_turns, &mut OpenGate)?;
    assert!(rt; two.answer == Some(Tried::Declined(4)) && two.entries == 0);
    let relax = told(Phase::Relax, [0; 8]);
    let three = tried(rt.alloc(), &TETRAHEDRON, 5, relax, &mut OpenGate)?;
    let blocked = Tried::Blocked(flip(&[1, 2], &[3, 4])?);
    assert!(rt; three.answer == Some(blocked) && three.entries == 0);
    Ok(())
}

// A try that commits one flip asks its gate as it begins, for each of four labels, after the flip and
// at the journal. A gate that quits there leaves nothing behind.
#[test]
fn a_gate_ends_a_try_where_it_is_asked(rt: HostRuntime) -> Result<(), Fail> {
    for before in 0..8u32 {
        let point = match before {
            0 => Some(Point::Start),
            5 => Some(Point::Flipped),
            6 => Some(Point::Journal),
            7 => None,
            _ => Some(Point::Claimed),
        };
        let mut gate = Counting::new(before);
        let zeros = told(Phase::Heat, [0; 8]);
        let one = tried(rt.alloc(), &OCTAHEDRON, 8, zeros, &mut gate)?;
        assert!(rt;
            gate.ended == point && one.marked == (before > 0),
            "after {before}"
        );
        assert!(rt;
            (one.answer == Some(Tried::Quit)) == (before < 7),
            "after {before}"
        );
        assert!(rt; one.entries == usize::from(before == 7), "after {before}");
    }
    Ok(())
}

#[test]
fn five_tries_follow_one_another(rt: HostRuntime) -> Result<(), Fail> {
    let first = flip(&[1, 2, 3], &[7])?;
    let second = flip(&[1, 2, 4], &[7])?;
    let fourth = flip(&[1, 3, 5], &[7])?;
    let fifth = flip(&[2, 3, 6], &[8])?;
    let tries = [
        told(Phase::Heat, [0; 8]),
        told(Phase::Heat, [0, 0, 0, 0, 0, 0, 0, 1]),
        told(Phase::Reduce, [0; 8]),
        told(Phase::Heat, [2, 0, 0, 0, 0, 0, 0, 0]),
        told(Phase::Heat, [5, 0, 0, 0, 0, 0, 1, 0]),
    ];
    let rows = [
        (Tried::Committed(0), 1, Found::Won(0)),
        (Tried::Blocked(second), 1, Found::Won(1)),
        (Tried::Nothing, 1, Found::Won(1)),
        (Tried::Blocked(fourth), 3, Found::Won(1)),
        (Tried::Committed(1), 6, Found::Won(0)),
    ];
    let plan = plan(5)?;
    let start = complex(rt.alloc(), &OCTAHEDRON)?;
    let (made, ended) = attempted(rt.alloc(), &start, 8, &plan, &tries, &mut OpenGate)?;
    for (number, row) in rows.iter().enumerate() {
        assert!(rt; account(&made, number) == Some(*row), "try {number}");
    }
    assert!(rt; ended.journal.entries().len() == 2);
    assert!(rt; only_flip(&ended.journal, 0) == Some(first));
    assert!(rt; only_flip(&ended.journal, 1) == Some(fifth));
    Ok(())
}

#[test]
fn two_threads_commit_an_entry_each(rt: HostRuntime) -> Result<(), Fail> {
    // The first facet of place 1 with the first free label, and the last of place 6 with the second.
    let wanted = [flip(&[1, 2, 3], &[7])?, flip(&[4, 5, 6], &[8])?];
    let one = told(Phase::Heat, [0; 8]);
    let other = told(Phase::Heat, [5, 0, 3, 0, 0, 0, 1, 0]);
    let plan = plan(1000)?;
    let start = complex(rt.alloc(), &OCTAHEDRON)?;
    let ended = committed_both(&rt, rt.alloc(), &start, &plan, &one, &other)?;
    let entries = ended.journal.entries();
    assert!(rt; entries.len() == 2 && ended.end.facets().len() == 12);
    let (first, second) = if entries[0].worker() == 1 {
        (0, 1)
    } else {
        (1, 0)
    };
    assert!(rt; entries[0].seq() == 0 && entries[1].seq() == 0);
    assert!(rt; only_flip(&ended.journal, first) == Some(wanted[0]));
    assert!(rt; only_flip(&ended.journal, second) == Some(wanted[1]));
    Ok(())
}
