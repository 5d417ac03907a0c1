// The laws of a row or an attribute that is taken out, each the contract of a function that does nothing.
ghost use Rattle.corner_lines.specs.RemovalLaws.{FreeStayIsOutside, LeftIsUnfit, WithoutAttrHasRays};
ghost use Rattle.corner_lines.specs.RemovalLaws.{WithoutAttrIsCorner};
ghost use Rattle.corner_lines.specs.RemovalLaws.{WithoutAttrKeepsAttrs, WithoutAttrKeepsLines};
ghost use Rattle.corner_lines.specs.RemovalLaws.{WithoutRowHasRays, WithoutRowIsCorner, WithoutRowKeepsAttrs};
ghost use Rattle.corner_lines.specs.RemovalLaws.{WithoutRowKeepsLines};

/// Without a row whose mark is inside, the other marks are a corner, and each outside mark can still grow
/// alone.
pub fn without_row_is_corner()
    ensures corner { WithoutRowIsCorner }
    ensures rays { WithoutRowHasRays }
{}

/// The attributes' equations stay as they are.
pub fn without_row_keeps_attrs()
    ensures { WithoutRowKeepsAttrs }
{}

/// The equations of the other lines' deviations stay as they are too.
pub fn without_row_keeps_lines()
    ensures { WithoutRowKeepsLines }
{}

/// The marks are a corner without an attribute that no row names, and each outside mark can still grow
/// alone.
pub fn without_attr_is_corner()
    ensures corner { WithoutAttrIsCorner }
    ensures rays { WithoutAttrHasRays }
{}

/// The stay of such an attribute is outside.
pub fn free_stay_is_outside()
    ensures { FreeStayIsOutside }
{}

/// The other attributes' equations stay as they are.
pub fn without_attr_keeps_attrs()
    ensures { WithoutAttrKeepsAttrs }
{}

/// The equations of the inside lines' deviations stay as they are too.
pub fn without_attr_keeps_lines()
    ensures { WithoutAttrKeepsLines }
{}

/// A quantity that does not fit beside such an attribute does not fit without it.
pub fn left_is_unfit()
    ensures { LeftIsUnfit }
{}
