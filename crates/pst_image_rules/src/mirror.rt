//! Laws of segments. These functions have no code.

ghost use Rattle.pst_image_rules.specs.Laws.{SegmentsFollow};

/// Each segment ends where the next one of its slot begins, or where the life ends.
pub fn segments_follow()
    ensures { SegmentsFollow }
{}
