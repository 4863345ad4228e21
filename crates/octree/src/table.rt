// An octree as it is read: a split table over its roots. What writes the table, and what lists leaves, takes the two apart.
ghost use Rattle.std.specs.Prelude.{length};
ghost use Rattle.octree.specs.Parts.{Covers};

use crate::Roots;

#[derive(Clone, Copy)]
pub struct Octree<'a> {
    pub split: &'a [u8],
    pub roots: Roots,
    pub ghost covers: { Covers roots (length split.now) },
}
