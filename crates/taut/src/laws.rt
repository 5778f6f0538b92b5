// Theorems on the taut string, each on a contract so that its proof is asked for.
ghost use Rattle.taut.specs.Laws.{Shortness, Shortcut, Existence, Uniqueness, FanOrder, FanParts, PortalOrder};
ghost use Rattle.taut.specs.Backwards.{Backwards};
ghost use Rattle.taut.specs.EqualBends.{EqualBends};
ghost use Rattle.taut.specs.SheetStrings.{SheetStrings};

// No path through the portals is shorter than the taut string, under any gauge.
pub fn shortness_stands()
    ensures { Shortness }
{}

// A path that leaves out a place measures no more.
pub fn shortcut_stands()
    ensures { Shortcut }
{}

// The funnel's bends are a taut string.
pub fn existence_stands()
    ensures { Existence }
{}

// There is no other.
pub fn uniqueness_stands()
    ensures { Uniqueness }
{}

// In a fan a direction, its opposite and the direction again are not met in order.
pub fn fan_order_stands()
    ensures { FanOrder }
{}

// Parts of a fan are fans, and so is a fan read from its other end.
pub fn fan_parts_stand()
    ensures { FanParts }
{}

// What crosses portals meets them in their order.
pub fn portal_order_stands()
    ensures { PortalOrder }
{}

// A sleeve read backwards, and its string.
pub fn backwards_stand()
    ensures { Backwards }
{}

// Walks that part in a triangle do not have the same bends and the same end.
pub fn equal_bends_stand()
    ensures { EqualBends }
{}

// The funnel on a sheet with one hole.
pub fn sheet_strings_stand()
    ensures { SheetStrings }
{}
