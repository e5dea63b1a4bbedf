//! Devices for tests, of this crate and of those above: a reader that returns its bytes in pieces
//! and may fail, and a writer that is full after a number of bytes.
ghost use Rattle.std.specs.Prelude.{◌≡◌, ◌≤◌, ◌<◌, ◌^◌, ℕ, None, []};
ghost use Rattle.vcd_text.specs.Calls.{Fits, parked_answer, parked_seen};

use crate::registers::Parked;
use std::io;

/// Returns a parked feed that counts this many bytes (fewer than 2^63) as read, without a line
/// feed, and shows no token. With it a test reaches the greatest length that an input may have,
/// without a reader of that many bytes.
pub fn parked_after(bytes: u64) -> Parked
    requires { bytes < 2 ^ 63 }
    ensures seen { parked_seen result ≡ bytes }
    ensures going { parked_answer result ≡ None }
    ensures fits { (chunk limit : ℕ) → Fits result chunk limit }
{
    Parked {
        base: bytes,
        ..Parked::new()
    }
}

/// A reader that returns its bytes, at most `size` in each call, and then is at its end. It may
/// fail at one call, or from its end on.
#[derive(Drop)]
pub struct Pieces<'a> {
    /// The bytes that it has not returned yet.
    pub bytes: &'a [u8],
    /// How many bytes a call returns at most.
    pub size: usize,
    /// How many calls there were.
    pub calls: u64,
    /// The call that fails, counted from 1; 0 if none does.
    pub fails_at: u64,
    /// Whether each call fails once all bytes are returned.
    pub broken: bool,
}

impl<'a> Pieces<'a> {
    /// Returns a reader of these bytes that never fails, and returns at most `size` of them in each
    /// call.
    pub fn new(bytes: &'a [u8], size: usize) -> Self
        ensures bytes { result.bytes.now ≡ bytes.now }
        ensures rest { (result.size ≡ size) × (result.calls ≡ 0) × (result.fails_at ≡ 0) }
    {
        Pieces {
            bytes,
            size,
            calls: 0,
            fails_at: 0,
            broken: false,
        }
    }
}

impl io::Read for Pieces<'_> {
    /// Copies at most `size` of the bytes that are left to the front of `into`, and returns how
    /// many: 0 at their end. Fails at call number `fails_at`, and at the end of the bytes if
    /// `broken` is true; then it returns no byte.
    fn read(&mut self, into: &mut [u8]) -> io::Result<usize> {
        self.calls = self.calls.saturating_add(1);
        if self.calls == self.fails_at || self.broken && self.bytes.is_empty() {
            return Err(io::Error::from(io::ErrorKind::Other));
        }
        let n = self.size.min(into.len()).min(self.bytes.len());
        let (front, back) = self.bytes.split_at(n);
        into[..n].copy_from_slice(front);
        self.bytes = back;
        Ok(n)
    }
}

/// How many bytes a `Narrow` has room for at most.
pub const MAX_HELD: usize = 1024;

/// A writer that takes at most three bytes in each call. Once it is full, writes and flushes fail.
#[derive(Drop)]
pub struct Narrow {
    bytes: [u8; MAX_HELD],
    len: usize,
    room: usize,
    ghost in_range: { len ≤ room },
    ghost fits: { room ≤ 1024 },
}

impl Narrow {
    ghost use Rattle.vcd_text.specs.Doubles.{held_by};

    /// Returns a writer that takes this many bytes (at most 1,024) before it is full, and has taken
    /// none yet.
    pub fn new(room: usize) -> Self
        requires { room ≤ 1024 }
        ensures { held_by result ≡ [] }
    {
        Narrow {
            bytes: [0; MAX_HELD],
            len: 0,
            room,
        }
    }

    /// Returns the bytes that were written to this writer.
    pub fn held(&self) -> &[u8]
        ensures { result.now ≡ held_by self.now }
    {
        &self.bytes[..self.len]
    }
}

impl io::Write for Narrow {
    /// Takes bytes from the front of `buf`, at most three, as far as there is room, and returns how
    /// many. Fails if there is no room left and `buf` is not empty; then it takes none.
    fn write(&mut self, buf: &[u8]) -> io::Result<usize> {
        let n = buf.len().min(3).min(self.room - self.len);
        if n == 0 && !buf.is_empty() {
            return Err(io::Error::from(io::ErrorKind::StorageFull));
        }
        self.bytes[self.len..self.len + n].copy_from_slice(&buf[..n]);
        self.len += n;
        Ok(n)
    }

    /// Does nothing. Fails if the writer is full.
    fn flush(&mut self) -> io::Result<()> {
        if self.len == self.room {
            return Err(io::Error::from(io::ErrorKind::StorageFull));
        }
        Ok(())
    }
}
