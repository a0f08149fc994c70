ghost use Rattle.zst_gen.specs.Generated.{BlocksAreCounted, CommandsAreCounted};

/// The commands for a large input, by their numbers: so the next one can be made without those before it.
pub fn commands_are_counted()
    ensures blocks { BlocksAreCounted }
    ensures commands { CommandsAreCounted }
{}
