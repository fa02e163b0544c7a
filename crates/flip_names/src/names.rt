// Flips under other labels.
ghost use Rattle.std.specs.Prelude.{◌≡◌, ◌++◌, IfOk, OnOk, true};
ghost use Rattle.std.specs.List.{AllByRecursion};
ghost use Rattle.std.specs.Option.{SomeIff};
ghost use Rattle.complex_core.specs.Maps.{IsMap};
ghost use Rattle.flip_rules.specs.Flips.{OfFaces};
ghost use Rattle.flip_names.specs.Names.{named_flip, named_flips, takes_flip, takes_flips};

use complex_core::{VertexMap, image_of};
use flip_rules::Flip;
use std::alloc::{AllocError, Global};

/// The flip with each label replaced by the one that it becomes. `None` exactly where a label of A
/// or B has no pair. It takes no memory.
pub fn named_flip(flip: &Flip, names: &VertexMap) -> Option<Flip>
    ensures named { SomeIff result (takes_flip names.now flip.now ≡ true) (named_flip names.now flip.now) }

    // What the laws of renaming ask of a flip and of a map.
    ensures faces { OfFaces flip.now }
    ensures map { IsMap names.now }
{
    // A map takes no two labels to the same one: `pairs` says so.
    let _ = names.pairs();
    let a = image_of(names, &flip.a);
    let b = image_of(names, &flip.b);
    Some(Flip { a: a?, b: b? })
}

/// Adds flips behind others, with each label replaced by the one that it becomes, in their order.
///
/// Each label of each flip has a pair: so it is with flips of a positive index that are legal in
/// order from a complex whose labels have pairs. Whether they have, `named_flip` tells of one flip.
pub fn push_named(all: &mut Vec<Flip>, flips: &[Flip], names: &VertexMap) -> Result<(), AllocError>
    requires { takes_flips names.now flips.now ≡ true }
    ensures named { OnOk result (all.new.items ≡ all.old.items ++ named_flips names.now flips.now) }

    // What the laws of renaming ask of flips and of a map.
    ensures faces { OnOk result (AllByRecursion OfFaces flips.now) }
    ensures map { IsMap names.now }
{
    let _ = names.pairs();
    for flip in flips {
        match named_flip(flip, names) {
            Some(named) => all.push(named)?,
            None => unreachable!(),
        }
    }
    Ok(())
}

/// The flips with each label replaced by the one that it becomes, in their order.
///
/// The condition is that of [`push_named`].
pub fn named_flips(
    alloc: Global,
    flips: &[Flip],
    names: &VertexMap,
) -> Result<Vec<Flip>, AllocError>
    requires { takes_flips names.now flips.now ≡ true }
    ensures named { IfOk result (λ v. v.items ≡ named_flips names.now flips.now) }

    // What the laws of renaming ask of flips and of a map.
    ensures faces { OnOk result (AllByRecursion OfFaces flips.now) }
    ensures map { IsMap names.now }
{
    let mut all = Vec::new(alloc);
    push_named(&mut all, flips, names)?;
    Ok(all)
}
