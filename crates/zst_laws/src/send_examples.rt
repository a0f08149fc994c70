ghost use Rattle.zst_laws.specs.SendExample.{WholeItems, ChangedItems};

/// An object with a bonus and a spill has OBJECT with the bonus, SPILL, the FREE behind its end, and its blocks.
pub fn whole_object_is_sent()
    ensures { WholeItems }
{}

/// An increment has what was written, punched, freed and made since, by number and index.
pub fn changed_objects_are_sent()
    ensures { ChangedItems }
{}
