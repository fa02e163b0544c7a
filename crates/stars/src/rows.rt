// What a flip does to the rows of stars.
ghost use Rattle.std.specs.Prelude.{◌≡◌, ◌<◌, ◌≤◌, true, length, get_or, OnOk};
ghost use Rattle.complex_core.specs.Labels.{IsRising, has, holds};
ghost use Rattle.stars.specs.StarViews.{KeptStar, EachAtMost, vertices, shown, rooms};
ghost use Rattle.stars.specs.Changes.{stars_changed, CanChange, HasRoom, HasSpare, IsWithin};

use crate::star::Star;
use complex_core::Face;
use std::alloc::AllocError;

// The place of a vertex among stars that rise in their vertices.
pub(crate) fn place_of(near: &[Star], vertex: u16) -> usize
    requires rising { IsRising (vertices (shown near.now)) }
    requires held { has (vertices (shown near.now)) vertex ≡ true }
    ensures within { result < length near.now }
    ensures there { (other : KeptStar) → (get_or near.now result other).star.vertex ≡ vertex }
{
    near.partition_point(|star| star.vertex() < vertex)
}

// Makes room in the stars of some labels for so many more facets. No star is changed.
pub(crate) fn make_room(near: &mut [Star], labels: &[u16], more: usize) -> Result<(), AllocError>
    requires rising { IsRising (vertices (shown near.old)) }
    requires held { holds (vertices (shown near.old)) labels.now ≡ true }
    ensures stars { shown near.new ≡ shown near.old }
    ensures rooms { EachAtMost (rooms near.old) (rooms near.new) }
    ensures enough { OnOk result (HasSpare near.new labels.now more) }
{
    let Some((label, others)) = labels.split_first() else {
        return Ok(());
    };
    let place = place_of(near, *label);
    near[place].reserve(more)?;
    make_room(near, others, more)
}

// Changes the stars of some labels, which have room: takes sets out, and puts in those of others that
// contain the label. All of these sets lie within the labels `joined`. It takes no memory.
pub(crate) fn change_stars(
    near: &mut [Star],
    labels: &[u16],
    joined: &Face,
    out: &[Face],
    more: &[Face],
)
    requires can { CanChange (shown near.old) labels.now more.now }
    requires within { IsWithin joined.now out.now more.now }
    requires room { HasRoom near.old labels.now out.now more.now }
    ensures stars { shown near.new ≡ stars_changed (shown near.old) labels.now out.now more.now }
    ensures rooms { rooms near.new ≡ rooms near.old }
{
    if let Some((label, others)) = labels.split_first() {
        let place = place_of(near, *label);
        near[place].change(joined, out, more);
        change_stars(near, others, joined, out, more);
    }
}
