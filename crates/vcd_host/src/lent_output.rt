//! An output into bytes that were lent.
ghost use Rattle.std.specs.Prelude.{◌≡◌, ◌-◌, ◌^◌, ◌<◌, ◌≤◌, ◌++◌, [], IfSome, Some, length, take, false, true};

use crate::buffer::{FEW, PARTS, SHORT, copy, copy_eight, copy_parts, copy_short};
use crate::gone::Gone;
use crate::host::Output;
use vcd_text::{Few, Sink, WriteFailed};

/// Once this many bytes found no room, they are not counted any more.
const UNCOUNTED: u64 = 9_223_372_036_854_775_808;

/// Bytes that were lent, and are filled from the front. Bytes that find no room there are counted
/// and dropped. No write fails.
#[derive(Drop)]
pub struct LentOutput<'a> {
    bytes: &'a mut [u8],
    used: usize,
    // How many bytes found no room, if fewer than 2^63.
    dropped: u64,
    gone: Gone,
    ghost within: { used ≤ length bytes.now },
    ghost number: { dropped < 2 ^ 63 → dropped ≡ length gone.bytes },
    // Bytes are dropped only once there is no room.
    ghost order: { 0 < dropped → used ≡ length bytes.now },
}

impl<'a> LentOutput<'a> {
    ghost use Rattle.vcd_host.specs.Fills.{Fills};
    ghost use Rattle.vcd_host.specs.LentOutput.{held, written};

    /// Returns an output that writes into these bytes, from the first one on. Nothing was written
    /// yet.
    pub fn new(bytes: &'a mut [u8]) -> LentOutput<'a>
        ensures loan { result.bytes.ghost_name ≡ bytes.entry.ghost_name }
        ensures empty { written result ≡ [] }
    {
        LentOutput {
            bytes,
            used: 0,
            dropped: 0,
            gone: Gone::new(),
        }
    }

    /// Returns how many bytes were written to this output, also those for which the slice had no
    /// room. `None` if there was no room for 2^63 or more. The others are the first bytes of the
    /// slice.
    pub fn len(&self) -> Option<u64>
        ensures { IfSome result (λ n. Fills self.now.bytes.now n (written self.now)) }
    {
        if self.dropped >= UNCOUNTED {
            return None;
        }
        Some(self.used as u64 + self.dropped)
    }

    /// Takes some of these bytes, from the first one on, and returns how many: as many as the slice
    /// has room for, or all of them if it is full; then they are only counted, and dropped. There
    /// must be at least as many bytes as there is room for.
    #[cold]
    #[inline(never)]
    fn write_over(&mut self, from: &[u8]) -> usize
        requires { length self.old.bytes.now - self.old.used ≤ length from.now }
        ensures bound { result ≤ length from.now }
        ensures takes { 0 < length from.now → 0 < result }
        ensures bytes { held self.new ≡ held self.old ++ take result from.now }
    {
        let room = self.bytes.len() - self.used;
        if room > 0 {
            self.bytes[self.used..].copy_from_slice(&from[..room]);
            self.used += room;
            return room;
        }
        self.dropped = self.dropped.saturating_add(from.len() as u64);
        self.gone.push(from);
        from.len()
    }
}

impl Sink for LentOutput<'_> {
    ghost use Rattle.vcd_host.specs.LentOutput.{held};

    ghost device = { λ sink. record {
      held = Some (held sink);
      failures = 0;
      last_failed = false;
    } };

    ghost kept_back = { λ _. 0 };

    /// Takes bytes from the front of `from`, and returns how many: as many as the slice has room
    /// for, or all of them if it is full; then they are only counted, and dropped. It never fails.
    #[inline(always)]
    fn write(&mut self, from: &[u8]) -> Result<usize, WriteFailed> {
        if from.len() >= self.bytes.len() - self.used {
            return Ok(self.write_over(from));
        }
        let end = self.used + from.len();
        copy(from, &mut self.bytes[self.used..end]);
        self.used = end;
        Ok(from.len())
    }

    /// Writes these bytes, and returns true. Returns false, and writes none, if the slice has no
    /// room for more than 8.
    #[inline(always)]
    fn write_few(&mut self, few: Few) -> bool {
        if self.bytes.len() - self.used <= FEW {
            return false;
        }
        copy_eight(self.bytes, self.used, few.bytes);
        self.used += few.len;
        true
    }

    /// Writes the first `n` bytes of `from`, and returns true. Returns false, and writes none, if
    /// `n` is above 64, if `from` has fewer than 64 bytes, or if the slice has no room for more
    /// than 64.
    #[inline(always)]
    fn write_front(&mut self, from: &[u8], n: usize) -> bool {
        if n > SHORT || from.len() < SHORT || self.bytes.len() - self.used <= SHORT {
            return false;
        }
        copy_short(self.bytes, self.used, from);
        self.used += n;
        true
    }

    /// Writes `first`, the first `n` bytes of `from` and those of `end`, and returns true. Returns
    /// false, and writes none, if `n` is above 64, if `from` has fewer than 64 bytes, or if the
    /// slice has no room for more than 73.
    #[inline(always)]
    fn write_parts(&mut self, first: u8, from: &[u8], n: usize, end: Few) -> bool {
        if n > SHORT || from.len() < SHORT || self.bytes.len() - self.used <= PARTS {
            return false;
        }
        copy_parts(self.bytes, self.used, first, from, n, end.bytes);
        self.used += 1 + n + end.len;
        true
    }

    /// Does nothing and succeeds, since no bytes are kept back.
    #[inline(always)]
    fn pass_on(&mut self) -> Result<(), WriteFailed> {
        Ok(())
    }

    /// Returns 0: no write fails.
    fn failures(&self) -> u64 {
        0
    }
}

/// It has no buffer.
impl Output for LentOutput<'_> {
    ghost flushes = { λ old done new. (done ≡ true) × (new ≡ old) };

    /// Does nothing and succeeds, since no bytes are kept back.
    fn flush(&mut self) -> Result<(), WriteFailed> {
        Ok(())
    }
}
