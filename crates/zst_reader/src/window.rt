ghost use Rattle.std.specs.Prelude.{◌≡◌, ◌+◌, ◌<◌, ◌≤◌, [], ◌++◌, length, drop, IfOk, vec_len};
ghost use Rattle.zst_reader.specs.declared.TheConstants.{CAPACITY};

use crate::CAPACITY;
use std::alloc::{AllocError, Global};
use zst_outside::{Fault, Source};

/// The bytes from `start` to `end`, in a buffer that never grows.
#[derive(Drop)]
pub(crate) struct Window {
    bytes: Vec<u8>,
    start: usize,
    end: usize,
    ghost ordered: { start ≤ end },
    ghost inside: { end ≤ CAPACITY },
    ghost whole: { vec_len bytes ≡ CAPACITY },
}

impl Window {
    ghost use Rattle.zst_reader.specs.Window.{items, Takes};

    /// An empty window.
    pub(crate) fn new(alloc: Global) -> Result<Window, AllocError>
        ensures { IfOk result (λ w. items w ≡ []) }
    {
        Ok(Window {
            bytes: vec![in alloc; 0; CAPACITY]?,
            start: 0,
            end: 0,
        })
    }

    /// The bytes that it holds.
    pub(crate) fn as_slice(&self) -> &[u8]
        ensures items { result.now ≡ items self.now }
        ensures bounded { length result.now ≤ CAPACITY }
    {
        &self.bytes[self.start..self.end]
    }

    /// Lets go of the first bytes.
    pub(crate) fn consume(&mut self, count: usize)
        requires { count ≤ length (items self.old) }
        ensures { items self.new ≡ drop count (items self.old) }
    {
        self.start += count;
    }

    /// Adds a piece.
    pub(crate) fn append(&mut self, piece: &[u8])
        requires { length (items self.old) + length piece.now ≤ CAPACITY }
        ensures { items self.new ≡ items self.old ++ piece.now }
    {
        self.make_room(piece.len());
        let (start, end) = (self.end, self.end + piece.len());
        self.bytes[start..end].copy_from_slice(piece);
        self.end = end;
    }

    /// Reads up to so many bytes of an input, straight into the room behind those that it holds.
    pub(crate) fn read_from<S: Source>(
        &mut self,
        input: &mut S,
        most: usize,
    ) -> Result<usize, Fault>
        requires some { 0 < most }
        requires room { length (items self.old) + most ≤ CAPACITY }
        ensures takes { Takes (S.state input.old) (S.state input.new) (items self.old) (items self.new) result }
        ensures most { IfOk result (λ count. count ≤ most) }
    {
        self.make_room(most);
        let (start, end) = (self.end, self.end + most);
        let count = input.read(&mut self.bytes[start..end])?;
        self.end = start + count;
        Ok(count)
    }

    // Makes room for so many bytes. What it holds is moved only where too little stands behind it.
    fn make_room(&mut self, count: usize)
        requires { length (items self.old) + count ≤ CAPACITY }
        ensures items { items self.new ≡ items self.old }
        ensures room { self.new.end + count ≤ CAPACITY }
    {
        if CAPACITY - self.end < count {
            self.move_to_front();
        }
    }

    fn move_to_front(&mut self)
        ensures items { items self.new ≡ items self.old }
        ensures front { self.new.end ≡ length (items self.old) }
    {
        let (start, end) = (self.start, self.end);
        self.bytes.copy_within(start..end, 0);
        self.start = 0;
        self.end = end - start;
    }
}
