// Boards without commits.
use crate::sample::{OCTAHEDRON, TETRAHEDRON, complex};
use stars::StarMap;
use std::test::Fail;
use vertex_claims::{Board, Claimed, Found};

#[test]
fn a_place_that_is_held_is_refused(rt: HostRuntime) -> Result<(), Fail> {
    let start = complex(rt.alloc(), &TETRAHEDRON)?;
    assert!(rt; StarMap::can_hold(&start, 4));
    let (board, mut main) = Board::open(rt.alloc(), &start, 4, 2, 0)?;
    let mut first = main.hand_out(rt.alloc(), &board, 1)?;
    let mut second = main.hand_out(rt.alloc(), &board, 1)?;
    first.first_claim(&board, 1)?;
    let refused = second.first_claim(&board, 1);
    assert!(rt; refused == Err(Claimed { place: 1, owner: 1 }));
    let marks = main.take_back(&board, second);
    assert!(rt; marks.worker() == 2 && marks.list().len() == 1);
    assert!(rt; marks.list()[0].found == Found::Lost(1));
    first.release(&board, 1);
    let marks = main.take_back(&board, first);
    assert!(rt; marks.worker() == 1 && marks.list().len() == 1);
    assert!(rt; marks.list()[0].found == Found::Won(0));
    Ok(())
}

#[test]
fn a_board_without_commits_has_its_stars(rt: HostRuntime) -> Result<(), Fail> {
    let start = complex(rt.alloc(), &OCTAHEDRON)?;
    assert!(rt; StarMap::can_hold(&start, 8));
    let (board, mut main) = Board::open(rt.alloc(), &start, 8, 1, 0)?;
    let mut pass = main.hand_out(rt.alloc(), &board, 1)?;
    pass.first_claim(&board, 1)?;
    pass.claim(&board, 0)?;
    pass.leave_journal(&board);
    pass.release(&board, 1);
    let _marks = main.take_back(&board, pass);
    let (journal, stars) = board.close(rt.alloc(), main)?;
    assert!(rt; journal.entries().is_empty() && stars.places() == 8);
    let end = stars.complex(rt.alloc())?;
    assert!(rt; end.facets() == start.facets());
    Ok(())
}
