ghost use Rattle.zst_script.specs.Examples.{ImagesStand, LinesAreRefused, PoolsAreSaid, SessionsAreSaid};
ghost use Rattle.zst_script.specs.ScriptLines.{LittleIsRead, LongSaysNone, ReadsAll, StopsAtLimit, StopsAtLine};
ghost use Rattle.zst_script.specs.Scripts.{LinesEnd, OneEvent, ScriptsGoOn};

/// Lines that are written out say what they should, or no event.
pub fn lines_say_events()
    ensures sessions { SessionsAreSaid }
    ensures images { ImagesStand }
    ensures pools { PoolsAreSaid }
    ensures refused { LinesAreRefused }
{}

/// A line says one event, or none.
pub fn lines_say_one_event()
    ensures { OneEvent }
{}

/// A script can be read line by line.
pub fn scripts_go_on()
    ensures lines { LinesEnd }
    ensures events { ScriptsGoOn }
{}

/// What the lines say that were read of an input is what the script says.
pub fn read_lines_are_scripts()
    ensures little { LittleIsRead }
    ensures whole { ReadsAll }
    ensures misread { StopsAtLine }
    ensures too_long { StopsAtLimit }
    ensures long { LongSaysNone }
{}
