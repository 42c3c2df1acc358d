//! Extents in a slice that are known to be an extent list.
ghost use Rattle.extents.specs.Extents.{ExtentList};
ghost use Rattle.extents.specs.Rising.{ExtentList-prop};

use super::extent::Extent;

/// A borrowed slice of extents whose starts and ends rise. Who makes one has shown that they do, so nothing is tested.
#[derive(Clone, Copy, Debug)]
pub struct Ordered<'a> {
    /// The extents.
    pub items: &'a [Extent],
    ghost rising: { ExtentList items.now } by { ExtentList-prop items.now },
}
