//! A sink that buffers bytes for another sink, so that the other sink gets few large writes.
ghost use Rattle.std.specs.Prelude.{◌≡◌, ◌+◌, ◌++◌, ◌≤◌, ℕ, List, length, drop, IfOk, OnOk, []};
ghost use Rattle.std.specs.Io.KnownBytes.{Keeps, append_known};
ghost use Rattle.outside.specs.Outside.{HasCause, SameInner, inner_of};

use crate::put::send;
use crate::sink::{Sink, WriteFailed};
use psi_base::NoMemory;
use std::alloc::Global;
use std::marker::Model;

/// The maximum number of pending bytes.
const ROOM: usize = 65536;

/// The pending bytes of a buffered sink, at most 65,536. `new` allocates all of their memory. In
/// contracts, they are a list of bytes.
#[derive(Drop)]
pub struct Pending {
    bytes: Vec<u8>,
}

impl Model for Pending {
    ghost use Rattle.std.specs.Prelude.{◌≤◌, ℕ, List, vec_capacity, vec_len};

    ghost Value = { List ℕ };

    ghost view = { λ p. p.bytes.items };

    ghost invariant = { λ p. (vec_len p.bytes ≤ 65536) × (65536 ≤ vec_capacity p.bytes) };
}

impl Pending {
    /// Makes an empty buffer. All of its memory is allocated at once.
    pub fn new(alloc: Global) -> Result<Pending, NoMemory>
        ensures { IfOk result (λ p. p ≡ []) }
    {
        Ok(Pending {
            bytes: Vec::with_capacity(alloc, ROOM)?,
        })
    }

    fn bytes(&self) -> &[u8]
        ensures { result.now ≡ self.now }
    {
        &self.bytes
    }

    fn room(&self) -> usize
        ensures { result + length self.now ≡ ROOM }
    {
        ROOM - self.bytes.len()
    }

    fn append(&mut self, piece: &[u8])
        requires { length self.old + length piece.now ≤ ROOM }
        ensures { self.new ≡ self.old ++ piece.now }
    {
        if self.bytes.extend_from_slice(piece).is_err() {
            unreachable!()
        }
    }

    fn remove_prefix(&mut self, count: usize)
        requires { count ≤ length self.old }
        ensures { self.new ≡ drop count self.old }
    {
        let len = self.bytes.len();
        self.bytes.as_mut_slice().copy_within(count..len, 0);
        self.bytes.truncate(len - count);
    }
}

/// A sink that buffers bytes for another sink, which it borrows. It forwards the pending bytes
/// together if a piece doesn't fit after them, and forwards a piece of more than 65,536 bytes
/// without a copy. It does not allocate.
///
/// Its content is the content of the other sink followed by the pending bytes. Its fault count is
/// the fault count of the other sink. After a failed write, no byte of the piece was taken.
/// [`BufferedSink::flush`] forwards the pending bytes; without it they are lost.
#[derive(Drop)]
pub struct BufferedSink<'a, K> {
    out: &'a mut K,
    pending: &'a mut Pending,
}

impl<'a, K: Sink> BufferedSink<'a, K> {
    /// Makes a buffered sink for the sink `out`. `pending` must be empty.
    pub fn new(out: &'a mut K, pending: &'a mut Pending) -> BufferedSink<'a, K>
        requires { pending.old ≡ [] }
        ensures same_reference { result.out.ghost_name ≡ out.entry.ghost_name }
        ensures made { (result.out.now ≡ out.old) × (result.pending.now ≡ []) }
    {
        BufferedSink { out, pending }
    }

    /// Forwards all pending bytes. After a failure, the bytes that the other sink hasn't taken are
    /// still pending.
    pub fn flush(&mut self) -> Result<(), WriteFailed>
        ensures bytes { Keeps (append_known (K.has self.old.out.now) self.old.pending.now)
            (append_known (K.has self.new.out.now) self.new.pending.now) }
        ensures all { OnOk result (self.new.pending.now ≡ []) }
        ensures cause { HasCause (K.faults self.old.out.now) (K.faults self.new.out.now) result }
        ensures below { SameInner (inner_of self.old.out.ghost_name (K.has self.old.out.now))
            (inner_of self.new.out.ghost_name (K.has self.new.out.now)) }
    {
        let (sent, result) = send(&mut *self.out, self.pending.bytes());
        self.pending.remove_prefix(sent);
        result
    }
}

impl<K: Sink> Sink for BufferedSink<'_, K> {
    ghost has = { λ b. append_known (K.has b.out.now) b.pending.now };

    ghost faults = { λ b. K.faults b.out.now };

    ghost below = { λ b. inner_of b.out.ghost_name (K.has b.out.now) };

    fn write(&mut self, piece: &[u8]) -> Result<usize, WriteFailed> {
        if piece.len() > self.pending.room() {
            self.flush()?;
            if piece.len() > ROOM {
                return self.out.write(piece);
            }
        }
        self.pending.append(piece);
        Ok(piece.len())
    }
}
