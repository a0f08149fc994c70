ghost use Rattle.std.specs.Prelude.{◌≡◌, ◌+◌, ◌<◌, ◌≤◌, [], length, take, drop, IfOk, vec_len};
ghost use Rattle.zst_script.specs.declared.line_room.TheConstants.{ROOM};

use crate::LONGEST_LINE;
use std::alloc::{AllocError, Global};
use zst_outside::{Fault, Source};

/// How many bytes a room has: those of the longest line, and its line feed.
pub(crate) const ROOM: usize = LONGEST_LINE + 1;

/// Where less room stands behind what is held, that is moved to the front before more is read.
const PIECE: usize = 131_072;

/// Places in a room, from the one on and up to the other.
#[derive(Clone, Copy)]
pub(crate) struct Span {
    from: usize,
    to: usize,
    ghost ordered: { from ≤ to },
    ghost inside: { to ≤ ROOM },
}

/// The bytes from `start` to `end`, in a room that never grows.
#[derive(Drop)]
pub(crate) struct LineRoom {
    bytes: Vec<u8>,
    start: usize,
    end: usize,
    ghost ordered: { start ≤ end },
    ghost inside: { end ≤ ROOM },
    ghost whole: { vec_len bytes ≡ ROOM },
}

impl LineRoom {
    ghost use Rattle.zst_script.specs.LineRoom.{Takes, bytes_in, items};

    /// An empty room.
    pub(crate) fn new(alloc: Global) -> Result<LineRoom, AllocError>
        ensures { IfOk result (λ room. items room ≡ []) }
    {
        Ok(LineRoom {
            bytes: vec![in alloc; 0; ROOM]?,
            start: 0,
            end: 0,
        })
    }

    /// The bytes that it holds.
    pub(crate) fn held(&self) -> &[u8]
        ensures items { result.now ≡ items self.now }
        ensures bounded { length result.now ≤ ROOM }
    {
        &self.bytes[self.start..self.end]
    }

    /// The bytes at these places.
    pub(crate) fn between(&self, span: Span) -> &[u8]
        ensures { result.now ≡ bytes_in self.now span }
    {
        &self.bytes[span.from..span.to]
    }

    /// Lets go of the first bytes, and tells where the very first of them stand, until more is read.
    pub(crate) fn take_front(&mut self, first: usize, count: usize) -> Span
        requires first { first ≤ count }
        requires held { count ≤ length (items self.old) }
        ensures front { bytes_in self.new result ≡ take first (items self.old) }
        ensures rest { items self.new ≡ drop count (items self.old) }
    {
        let from = self.start;
        self.start += count;
        Span {
            from,
            to: from + first,
        }
    }

    /// Lets go of all that it holds.
    pub(crate) fn clear(&mut self)
        ensures { items self.new ≡ [] }
    {
        self.start = 0;
        self.end = 0;
    }

    /// Reads up to so many bytes of an input, as far as there is room, straight behind those that it holds.
    pub(crate) fn read_from<S: Source>(
        &mut self,
        input: &mut S,
        most: usize,
    ) -> Result<usize, Fault>
        requires some { 0 < most }
        requires room { length (items self.old) < ROOM }
        ensures takes { Takes (S.state input.old) (S.state input.new) (items self.old) (items self.new) result }
        ensures most { IfOk result (λ count. count ≤ most) }
    {
        self.make_room();
        let start = self.end;
        let end = start + most.min(ROOM - start);
        let count = input.read(&mut self.bytes[start..end])?;
        self.end = start + count;
        Ok(count)
    }

    // Makes room for some bytes. What it holds is moved only where too little stands behind it.
    fn make_room(&mut self)
        requires { length (items self.old) < ROOM }
        ensures items { items self.new ≡ items self.old }
        ensures room { self.new.end < ROOM }
    {
        if ROOM - self.end < PIECE {
            self.move_to_front();
        }
    }

    fn move_to_front(&mut self)
        ensures items { items self.new ≡ items self.old }
        ensures front { self.new.end ≡ length (items self.old) }
    {
        let (start, end) = (self.start, self.end);
        self.bytes.copy_within(start..end, 0);
        self.start = 0;
        self.end = end - start;
    }
}
