ghost use Rattle.std.specs.Prelude.{◌≡◌, OnOk};
ghost use Rattle.std.specs.Io.{ReadsAtMost};
ghost use Rattle.zst_outside.specs.Causes.{HasCause};
ghost use Rattle.zst_outside.specs.States.{SourceState, ReadGives};

use crate::Fault;

/// An input, read from its front.
pub trait Source {
    /// What it gave so far, whether it told its end, and how often it has failed.
    ghost state: { Self → SourceState };

    /// Gives the next bytes, as many as it likes up to the buffer's length: none only at the end
    /// of the input or where the buffer has no room. A fault takes no byte of the input.
    fn read(&mut self, into: &mut [u8]) -> Result<usize, Fault>
        ensures bound { ReadsAtMost result into.new }
        ensures bytes { ReadGives (state self.old) (state self.new) result into.new }
        ensures count_stays { OnOk result ((state self.new).faults ≡ (state self.old).faults) }
        ensures cause { HasCause (state self.old).faults (state self.new).faults result };

    /// The count of faults, which stays at 2^64 - 1 once it is there.
    fn faults(&self) -> u64
        ensures { result ≡ (state self.now).faults };
}
