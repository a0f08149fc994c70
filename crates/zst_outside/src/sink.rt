ghost use Rattle.std.specs.Prelude.{◌≡◌, ◌<◌, IfOk, OnOk, length};
ghost use Rattle.std.specs.Io.{WritesAtMost};
ghost use Rattle.zst_outside.specs.Causes.{HasCause};
ghost use Rattle.zst_outside.specs.States.{SinkState, TakesFront, HandedOn};
ghost use Rattle.zst_outside.specs.Printing.{Prints};

use crate::Fault;

/// An output, written at its end.
pub trait Sink {
    /// What was written, what of it waits to be handed on, and how often the sink has failed.
    ghost state: { Self → SinkState };

    /// Takes a front of the bytes, none only where there are none. A fault takes no byte.
    fn write(&mut self, from: &[u8]) -> Result<usize, Fault>
        ensures bound { WritesAtMost result from.now }
        ensures some { IfOk result (λ n. 0 < length from.now → 0 < n) }
        ensures bytes { TakesFront (state self.old) (state self.new) result from.now }
        ensures count_stays { OnOk result ((state self.new).faults ≡ (state self.old).faults) }
        ensures cause { HasCause (state self.old).faults (state self.new).faults result };

    /// Hands on all that waits. After a fault some of it may still wait.
    fn flush(&mut self) -> Result<(), Fault>
        ensures written { (state self.new).written ≡ (state self.old).written }
        ensures flushed { OnOk result (HandedOn (state self.new)) }
        ensures count_stays { OnOk result ((state self.new).faults ≡ (state self.old).faults) }
        ensures cause { HasCause (state self.old).faults (state self.new).faults result };

    /// The count of faults, which stays at 2^64 - 1 once it is there.
    fn faults(&self) -> u64
        ensures { result ≡ (state self.now).faults };
}

/// Writes all of a text. A fault leaves a front of it written.
pub fn write_all<K: Sink>(out: &mut K, text: &[u8]) -> Result<(), Fault>
    ensures { Prints (K.state out.old) (K.state out.new) text.now result }
{
    let mut rest = text;
    while !rest.is_empty() {
        let count = out.write(rest)?;
        rest = &rest[count..];
    }
    Ok(())
}
