//! Bytes that wait, in memory that is taken only once.
ghost use Rattle.std.specs.Prelude.{◌≡◌, ◌+◌, ◌-◌, ◌<◌, ◌≤◌, ◌∷◌, ◌++◌, [], true, length, take, drop, vec_len, IfOk};

use std::alloc::{AllocError, Global};
use std::simd::prelude::*;
use vcd_text::Few;

/// How many bytes may wait.
// 65,536 are no faster, and whoever reads a live pipe would wait longer.
pub(crate) const ROOM: usize = 8_192;

/// How many bytes a copy of a fixed length copies at most.
pub(crate) const SHORT: usize = 64;

/// How many bytes a copy as one number copies.
pub(crate) const FEW: usize = 8;

/// How many bytes `push_parts` may copy.
pub(crate) const PARTS: usize = 1 + SHORT + FEW;

/// The bytes that a sink has taken and its device has not, one after the other.
#[derive(Drop)]
pub(crate) struct Buffer {
    bytes: Vec<u8>,
    pub(crate) len: usize,
    // At most 1 more than the bytes that waited when the last write failed. A byte that is taken
    // later is beyond it, so no call that copies has to note that it succeeded.
    pub(crate) failed_at: usize,
    ghost size: { vec_len bytes ≡ 8192 },
    ghost room: { len ≤ 8192 },
    ghost failed: { failed_at ≤ len + 1 },
}

/// Copies all of `from` to `to`, which has the same length.
// Short copies have arms of their own: without them, `cut` inside its window takes 6 % more over
// scalars, and `pick` of all takes 3 % more (but `pick` of five variables 8 % less).
#[inline(always)]
pub(crate) fn copy(from: &[u8], to: &mut [u8])
    requires { length to.old ≡ length from.now }
    ensures { to.new ≡ from.now }
{
    match *from {
        [a] => to[0] = a,
        [a, b, c] => {
            to[0] = a;
            to[1] = b;
            to[2] = c;
        }
        [a, b, c, d] => {
            to[0] = a;
            to[1] = b;
            to[2] = c;
            to[3] = d;
        }
        [a, b, c, d, e] => {
            to[0] = a;
            to[1] = b;
            to[2] = c;
            to[3] = d;
            to[4] = e;
        }
        _ => to.copy_from_slice(from),
    }
}

/// Copies the first 64 bytes of `from` into `to` from offset `position` on. Both must have as many.
/// The other bytes of `to` stay as they are.
#[inline(always)]
pub(crate) fn copy_short(to: &mut [u8], position: usize, from: &[u8])
    requires room { position + 64 ≤ length to.old }
    requires there { 64 ≤ length from.now }
    ensures long { length to.new ≡ length to.old }
    ensures copied { take (position + 64) to.new ≡ take position to.old ++ take 64 from.now }
{
    u8x64::from_slice(from).copy_to_slice(&mut to[position..]);
}

/// Returns the same bytes, by way of one number, so that the compiler copies them in one step.
#[inline(always)]
fn as_word(bytes: [u8; 8]) -> [u8; 8]
    ensures { result ≡ bytes }
{
    u64::from_le_bytes(bytes).to_le_bytes()
}

/// Copies the 8 bytes of `from` into `to` from offset `position` on, in one step. `to` must have
/// room for them, and its other bytes stay as they are.
#[inline(always)]
pub(crate) fn copy_eight(to: &mut [u8], position: usize, from: [u8; 8])
    requires room { position + 8 ≤ length to.old }
    ensures long { length to.new ≡ length to.old }
    ensures copied { take (position + 8) to.new ≡ take position to.old ++ from }
{
    to[position..position + 8].copy_from_slice(&as_word(from));
}

/// Copies the byte `first`, the first `n` bytes of `from` and the 8 of `end`, one after another,
/// into `to` from offset `position` on. `n` is at most 64, `from` has at least 64 bytes, and `to`
/// has room for 73. The bytes of `to` after these may get any values.
// The copy of `from` always has 64 bytes: a copy of an unknown length is a call.
#[inline(always)]
pub(crate) fn copy_parts(
    to: &mut [u8],
    position: usize,
    first: u8,
    from: &[u8],
    n: usize,
    end: [u8; 8],
)
    requires few { n ≤ 64 }
    requires there { 64 ≤ length from.now }
    requires room { position + 73 ≤ length to.old }
    ensures long { length to.new ≡ length to.old }
    ensures copied { take (position + 1 + n + 8) to.new
        ≡ take position to.old ++ (first ∷ take n from.now ++ end) }
{
    to[position] = first;
    copy_short(to, position + 1, from);
    copy_eight(to, position + 1 + n, end);
}

impl Buffer {
    ghost use Rattle.vcd_host.specs.Buffer.{kept};

    /// Returns an empty buffer with room for 8,192 bytes. Fails if memory runs out.
    pub(crate) fn new(alloc: Global) -> Result<Buffer, AllocError>
        ensures bytes { IfOk result (λ buffer. kept buffer ≡ []) }
        ensures failed { IfOk result (λ buffer. buffer.failed_at ≡ 0) }
    {
        let bytes = vec![in alloc; 0u8; ROOM]?;
        Ok(Buffer {
            bytes,
            len: 0,
            failed_at: 0,
        })
    }

    /// Returns the bytes in the buffer, which are not written yet.
    pub(crate) fn as_slice(&self) -> &[u8]
        ensures { result.now ≡ kept self.now }
    {
        &self.bytes[..self.len]
    }

    /// Appends all of these bytes to the buffer, which must have room for them.
    #[inline(always)]
    pub(crate) fn push(&mut self, from: &[u8])
        requires { self.old.len + length from.now ≤ 8192 }
        ensures bytes { kept self.new ≡ kept self.old ++ from.now }
        ensures goes_on { 0 < length from.now → self.new.failed_at < self.new.len + 1 }
    {
        let end = self.len + from.len();
        copy(from, &mut self.bytes[self.len..end]);
        self.len = end;
    }

    /// Appends these bytes to the buffer, by one copy of 8, for which it must have room.
    #[inline(always)]
    pub(crate) fn push_few(&mut self, few: Few)
        requires { self.old.len + 8 ≤ 8192 }
        ensures bytes { kept self.new ≡ kept self.old ++ take few.len few.bytes }
        ensures goes_on { 0 < few.len → self.new.failed_at < self.new.len + 1 }
    {
        copy_eight(&mut self.bytes, self.len, few.bytes);
        self.len += few.len;
    }

    /// Returns whether `push_front` and `push_parts` may append the first `n` bytes of `from`: `n`
    /// is at most 64, `from` has at least 64 bytes, and the buffer has room for the 73 that
    /// `push_parts` may copy.
    #[inline(always)]
    pub(crate) fn has_room(&self, from: &[u8], n: usize) -> bool
        ensures few { result ≡ true → n ≤ 64 }
        ensures there { result ≡ true → 64 ≤ length from.now }
        ensures room { result ≡ true → self.now.len + 73 ≤ 8192 }
    {
        n <= SHORT && from.len() >= SHORT && self.len <= ROOM - PARTS
    }

    /// Appends the first `n` bytes of `from` to the buffer, by one copy of 64, for which it must
    /// have room. `n` is at most 64, and `from` has at least 64 bytes.
    #[inline(always)]
    pub(crate) fn push_front(&mut self, from: &[u8], n: usize)
        requires few { n ≤ 64 }
        requires there { 64 ≤ length from.now }
        requires room { self.old.len + 64 ≤ 8192 }
        ensures bytes { kept self.new ≡ kept self.old ++ take n from.now }
        ensures goes_on { 0 < n → self.new.failed_at < self.new.len + 1 }
    {
        copy_short(&mut self.bytes, self.len, from);
        self.len += n;
    }

    /// Appends the byte `first`, the first `n` bytes of `from` and those of `end` to the buffer, by
    /// copies of fixed lengths. `n` is at most 64, `from` has at least 64 bytes, and the buffer
    /// must have room for 73.
    #[inline(always)]
    pub(crate) fn push_parts(&mut self, first: u8, from: &[u8], n: usize, end: Few)
        requires few { n ≤ 64 }
        requires there { 64 ≤ length from.now }
        requires room { self.old.len + 73 ≤ 8192 }
        ensures bytes { kept self.new ≡ kept self.old ++ (first ∷ take n from.now ++ take end.len end.bytes) }
        ensures goes_on { self.new.failed_at < self.new.len + 1 }
    {
        let position = self.len;
        copy_parts(&mut self.bytes, position, first, from, n, end.bytes);
        self.len = position + 1 + n + end.len;
    }

    /// Notes that a write has failed after the last byte that was appended.
    pub(crate) fn note_failure(&mut self)
        ensures kept { kept self.new ≡ kept self.old }
        ensures len { self.new.len ≡ self.old.len }
        ensures failed { self.new.failed_at ≡ self.new.len + 1 }
    {
        self.failed_at = self.len + 1;
    }

    /// Removes the first `n` bytes from the buffer, which were written, and forgets that a write
    /// failed before. The buffer has at least `n` bytes.
    pub(crate) fn remove_front(&mut self, n: usize)
        requires { n ≤ self.old.len }
        ensures kept { kept self.new ≡ drop n (kept self.old) }
        ensures len { self.new.len ≡ self.old.len - n }
        ensures goes_on { self.new.failed_at ≡ 0 }
    {
        self.failed_at = 0;
        self.bytes.copy_within(n..self.len, 0);
        self.len -= n;
    }
}
