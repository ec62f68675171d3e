//! Laws of the definitions: each is the contract of a function that does nothing.
ghost use Rattle.ds_shape.specs.Laws.{ShapesSayPatterns, PartsAreInOrder, ConstantsTell};
ghost use Rattle.ds_shape.specs.Laws.{KeysTellOutlines, OutlinesAreInOrder};

/// The parts of a pattern say together what the pattern says.
pub fn shapes_say_patterns()
    ensures { ShapesSayPatterns }
{}

/// What stands at paths is what stands at each of them, in order.
pub fn parts_are_in_order()
    ensures { PartsAreInOrder }
{}

/// Among patterns of one outline, those that match a value which passes the tests and has the
/// capture paths are exactly those whose constants it has, and they all capture the same.
pub fn constants_tell()
    ensures { ConstantsTell }
{}

/// Only equal outlines have the same key.
pub fn keys_tell_outlines()
    ensures { KeysTellOutlines }
{}

/// The order of outlines is total, and only an outline itself is equal to it.
pub fn outlines_are_in_order()
    ensures { OutlinesAreInOrder }
{}
