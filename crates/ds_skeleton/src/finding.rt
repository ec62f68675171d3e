//! A shape is found by its outline.
ghost use Rattle.std.specs.Prelude.{◌≡◌, length, option_copied, MatchResult};
ghost use Rattle.std.specs.declared.cmp.Ordering.TheVariants.{Less, Equal, Greater};
ghost use Rattle.std.specs.List.{HoldsAt};
ghost use Rattle.std.specs.List.Sorted.{IsSearchInRange, IsPartitionPoint};
ghost use Rattle.ds_skeleton.specs.Places.{outline_order};
ghost use Rattle.ds_skeleton.specs.Shapes.{AreInOrder, shape_at};

use crate::shape::Shape;
use ds_shape::Outline;

/// Where the shape of the outline stands, or where it is to be put.
pub(crate) fn position(shapes: &[Shape], outline: &Outline) -> Result<usize, usize>
    requires { AreInOrder shapes.now }
    ensures range { IsSearchInRange result (length shapes.now) }
    ensures place { MatchResult result
        (HoldsAt (λ s. outline_order s.outline outline.now ≡ Equal) shapes.now)
        (IsPartitionPoint (λ s. outline_order s.outline outline.now ≡ Less)
        (λ s. outline_order s.outline outline.now ≡ Greater) shapes.now) }
{
    shapes.binary_search_by(|shape| shape.outline.cmp(outline))
}

/// The shape of the outline.
pub(crate) fn find<'a>(shapes: &'a [Shape], outline: &Outline) -> Option<&'a Shape>
    requires { AreInOrder shapes.now }
    ensures { option_copied result ≡ shape_at shapes.now outline.now }
{
    match position(shapes, outline) {
        Ok(at) => Some(&shapes[at]),
        Err(_) => None,
    }
}
