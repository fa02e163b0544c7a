// The words that workers draw, and the flips that they propose.
use crate::samples::{OCTAHEDRON, complex};
use anneal_plan::{Phase, Plan, draw, proposal};
use stars::StarMap;
use std::test::Fail;

#[test]
fn draws_the_words_of_the_reference_generator(rt: HostRuntime) -> Result<(), Fail> {
    // The stream 54 of the seed 42, as PCG's reference code writes it in its demonstration.
    let plan = Plan::new(42, 8, 40, 200, 6, 40, 2, 16)?;
    let mut words = plan.stream(3, 6);
    let first = draw(&mut words);
    let reference = [
        0xa15c_02b7,
        0x7b47_f409,
        0xba1d_3330,
        0x83d2_f293,
        0xbfa4_784b,
        0xcbed_606e,
    ];
    assert!(rt; first[..6] == reference[..]);
    Ok(())
}

// A phase, a word, which all eight are, a turn, and the labels of A and B; none where there is no proposal.
type Row = (Phase, u32, u32, &'static [u16], &'static [u16]);

#[test]
fn proposes_by_phase_words_and_turn(rt: HostRuntime) -> Result<(), Fail> {
    let octahedron = complex(rt.alloc(), &OCTAHEDRON)?;
    assert!(rt; StarMap::can_hold(&octahedron, 8));
    let stars = StarMap::of(rt.alloc(), &octahedron, 8)?;
    let star = stars.star(1);
    assert!(rt; star.dim() >= 1);
    let rows: [Row; 6] = [
        (Phase::Heat, 0, 0, &[1, 2, 3], &[7]),
        (Phase::Heat, 0, 1, &[1, 2, 3], &[8]),
        (Phase::Heat, u32::MAX, 0, &[1, 4, 5], &[8]),
        (Phase::Relax, 0, 0, &[1, 2], &[3, 4]),
        (Phase::Relax, u32::MAX, 3, &[1, 5], &[3, 4]),
        (Phase::Reduce, 0, 0, &[], &[]),
    ];
    for (phase, word, turn, a, b) in rows {
        assert!(rt; turn <= 3);
        let flip = proposal(star, phase, &[word; 8], turn, &[7, 8]).unwrap_or_default();
        assert!(rt; flip.a.labels().as_slice() == a && flip.b.labels().as_slice() == b);
    }
    Ok(())
}
