ghost use Rattle.zst_laws.specs.CommandExample.{ObjectIsReplaced, RangeIsPunched};

/// `object` gives all attributes anew, also the spill.
pub fn object_is_replaced()
    ensures { ObjectIsReplaced }
{}

/// `punch` reaches each block of its range.
pub fn range_is_punched()
    ensures { RangeIsPunched }
{}
