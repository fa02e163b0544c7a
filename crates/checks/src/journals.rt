// Lists of flips that were worked out by hand.
ghost use Rattle.std.specs.Prelude.{◌≡◌, IfOk, true};
ghost use Rattle.complex_core.specs.Maps.{renamed};
ghost use Rattle.flip_journal.specs.Carried.{NamesLabels, IsLegalList};

use crate::samples::{SQUARE, complex, flip};
use complex_core::{Complex, VertexMap};
use flip_journal::{carry, flat, inverse_list, of_worker};
use flip_rules::{Entry, Flip, apply};
use std::alloc::{AllocError, Global};
use std::test::Fail;

#[test]
fn entries_have_their_flips_in_order(rt: HostRuntime) -> Result<(), Fail> {
    let mut flips = Vec::new(rt.alloc());
    flips.push(flip(&[1], &[2, 4])?)?;
    flips.push(flip(&[2, 4], &[9])?)?;
    flips.push(flip(&[3], &[2, 4])?)?;
    assert!(rt; flips.len() == 3);
    let one = Entry::new(rt.alloc(), 0, 1, 0, &flips[..2])?;
    let two = Entry::new(rt.alloc(), 1, 1, 0, &flips[2..])?;
    let three = Entry::new(rt.alloc(), 0, 2, 0, &flips[..1])?;
    let mut entries = Vec::new(rt.alloc());
    entries.push(one)?;
    entries.push(two)?;
    entries.push(three)?;
    let mut all = Vec::new(rt.alloc());
    all.extend_from_slice(&flips)?;
    all.push(flips[0])?;
    let told = flat(rt.alloc(), &entries)?;
    assert!(rt; told.as_slice() == all.as_slice());
    let own = of_worker(rt.alloc(), &entries, 0, 1)?;
    assert!(rt; own.len() == 1);
    assert!(rt; own[0].round() == 0 && own[0].worker() == 1 && own[0].flips().len() == 2);
    Ok(())
}

#[test]
fn the_inverse_list_begins_at_the_end(rt: HostRuntime) -> Result<(), Fail> {
    let mut flips = Vec::new(rt.alloc());
    flips.push(flip(&[1], &[2, 4])?)?;
    flips.push(flip(&[2, 4], &[9])?)?;
    let mut wanted = Vec::new(rt.alloc());
    wanted.push(flip(&[9], &[2, 4])?)?;
    wanted.push(flip(&[2, 4], &[1])?)?;
    let back = inverse_list(rt.alloc(), &flips)?;
    assert!(rt; back.as_slice() == wanted.as_slice());
    Ok(())
}

// Whether the map's first numbers are the labels of the complex.
fn names_labels(alloc: Global, complex: &Complex, map: &VertexMap) -> Result<bool, AllocError>
    ensures { IfOk result (λ b. b ≡ true → NamesLabels map.now complex.now) }
{
    let labels = complex.labels()?;
    let firsts: Vec<u16> = map.pairs().iter().map(|pair| pair.0).collect(alloc)?;
    Ok(firsts.as_slice() == labels.as_slice())
}

// Whether flips are legal in order.
fn are_legal(mut complex: Complex, flips: &[Flip]) -> bool
    ensures { result ≡ true → IsLegalList complex flips.now }
{
    for flip in flips {
        match apply(&mut complex, flip) {
            Ok(()) => {}
            Err(_) => return false,
        }
    }
    true
}

// Whether flips are legal in order on the image of a complex.
fn are_legal_there(complex: &Complex, map: &VertexMap, flips: &[Flip]) -> Result<bool, AllocError>
    ensures { IfOk result (λ b. b ≡ true → IsLegalList (renamed complex.now map.now) flips.now) }
{
    match complex.relabel(map)? {
        Some(image) => Ok(are_legal(image, flips)),
        None => Ok(false),
    }
}

// On the image the label 1 goes, which is called 4, and then 9 comes, which gets this name.
#[test]
fn a_name_is_given_again(rt: HostRuntime) -> Result<(), Fail> {
    let from = complex(rt.alloc(), &SQUARE)?;
    let map = VertexMap::from_pairs(rt.alloc(), &[(1, 2), (2, 3), (3, 4), (4, 1)])?;
    let mut flips = Vec::new(rt.alloc());
    flips.push(flip(&[1], &[2, 4])?)?;
    flips.push(flip(&[2, 4], &[9])?)?;
    flips.push(flip(&[3, 4], &[1])?)?;
    let mut wanted = Vec::new(rt.alloc());
    wanted.push(flip(&[4], &[1, 3])?)?;
    wanted.push(flip(&[1, 3], &[4])?)?;
    wanted.push(flip(&[2, 3], &[5])?)?;
    let end = VertexMap::from_pairs(rt.alloc(), &[(1, 2), (2, 3), (3, 4), (4, 9), (5, 1)])?;
    assert!(rt; names_labels(rt.alloc(), &from, &map)?);
    let flips = flips.as_slice();
    assert!(rt; are_legal_there(&from, &map, flips)?);
    let carried = carry(rt.alloc(), &from, &map, flips)?;
    assert!(rt; carried.0.as_slice() == wanted.as_slice());
    assert!(rt; carried.1.pairs() == end.pairs());
    Ok(())
}
