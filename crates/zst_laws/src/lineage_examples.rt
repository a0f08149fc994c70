ghost use Rattle.zst_laws.specs.LineageExample.{CloneHoldsOrigin, MarkHoldsHead, HoldersAreTold};

/// A clone keeps its origin; when the clone is gone, the origin goes too, and the list tells its bookmark.
pub fn clone_holds_origin()
    ensures { CloneHoldsOrigin }
{}

/// A bookmark of a snapshot that is gone keeps the head from being rolled back before it, but for -r.
pub fn mark_holds_head()
    ensures { MarkHoldsHead }
{}

/// The texts of these refusals.
pub fn holders_are_told()
    ensures { HoldersAreTold }
{}
