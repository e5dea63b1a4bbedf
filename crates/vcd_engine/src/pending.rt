//! Pending text: output that the chunk already has as bytes, and that is not written yet. Pieces
//! that adjoin are written in one call.
ghost use Rattle.std.specs.Prelude.{◌≡◌, ℕ, ◌+◌, ◌-◌, ◌^◌, ◌<◌, ◌≤◌, ◌++◌, ◌∷◌, List, [], length, slice_range, IfErr, IfOk};
ghost use Rattle.vcd_engine.specs.Names.{bytes_without, pending_in, IsLine, IsPart, line_without, Puts, PutsBehind, time_line};

use vcd_body::put_time;
use vcd_text::{Few, LINE_FEED, Sink, WriteFailed, put_few, put_front, put_parts};

/// Writes the bytes from `from` up to `to` (exclusive). Fails if a write does.
// Not inlined, so that a loop in which the piece grows has all registers.
#[inline(never)]
fn put_part<W: Sink>(bytes: &[u8], from: usize, to: usize, out: &mut W) -> Result<(), WriteFailed>
    requires failures { (W.device out.old).failures < 2 ^ 64 - 1 }
    requires within { (from ≤ to) × (to ≤ length bytes.now) }
    ensures { Puts (W.device out.old) (W.device out.new) (slice_range bytes.now from to) result }
{
    put_front(out, &bytes[from..], to - from)
}

/// Writes the bytes from `from` up to `to` (exclusive), without the `n` bytes after the first, and
/// a line feed. Fails if a write does.
// It is for lines that end with CR LF. Made anew from digits and codes, these cost `pick` of all
// scalars 30 % more.
#[inline(never)]
fn put_with_line_feed<W: Sink>(
    bytes: &[u8],
    from: usize,
    to: usize,
    n: usize,
    out: &mut W,
) -> Result<(), WriteFailed>
    requires failures { (W.device out.old).failures < 2 ^ 64 - 1 }
    requires within { (from + 1 + n ≤ to) × (to ≤ length bytes.now) }
    ensures { Puts (W.device out.old) (W.device out.new)
        (bytes_without bytes.now from to n ++ 10 ∷ []) result }
{
    let rest = from + 1 + n;
    put_parts(out, bytes[from], &bytes[rest..], to - rest, LINE_FEED)
}

/// The pending text: the bytes of the chunk from `from` up to `to`.
// Only numbers, so that a loop keeps them in registers.
#[derive(Clone, Copy)]
pub(crate) struct PendingCopy {
    from: usize,
    to: usize,
}

impl PendingCopy {
    /// Returns an empty piece of pending text: no bytes of the chunk wait to be written.
    #[inline(always)]
    pub(crate) fn new() -> PendingCopy
        ensures part { (bytes : List ℕ) → IsPart bytes result }
        ensures pending { (bytes : List ℕ) → pending_in bytes result ≡ [] }
    {
        PendingCopy { from: 0, to: 0 }
    }

    /// Writes the pending text, a part of `bytes`, those of the chunk; after it none is pending.
    /// Fails if a write does.
    #[inline(always)]
    pub(crate) fn flush<W: Sink>(&mut self, bytes: &[u8], out: &mut W) -> Result<(), WriteFailed>
        requires failures { (W.device out.old).failures < 2 ^ 64 - 1 }
        requires part { IsPart bytes.now self.old }
        ensures puts { Puts (W.device out.old) (W.device out.new) (pending_in bytes.now self.old) result }
        ensures pending { IfOk result
            (λ _. (pending_in bytes.now self.new ≡ []) × IsPart bytes.now self.new) }
        ensures some { IfErr result (λ _. 0 < length (pending_in bytes.now self.old)) }
    {
        if self.from < self.to {
            put_part(bytes, self.from, self.to, out)?;
            self.from = self.to;
        }
        Ok(())
    }

    /// Queues the bytes from `from` up to `to` (exclusive). If they come right after the pending
    /// text, they become part of it; otherwise that is written first, and they are the pending
    /// text. Fails if a write does.
    #[inline(always)]
    pub(crate) fn queue<W: Sink>(
        &mut self,
        bytes: &[u8],
        from: usize,
        to: usize,
        out: &mut W,
    ) -> Result<(), WriteFailed>
        requires failures { (W.device out.old).failures < 2 ^ 64 - 1 }
        requires part { IsPart bytes.now self.old }
        requires within { (from ≤ to) × (to ≤ length bytes.now) }
        ensures { PutsBehind bytes.now self.old self.new
            (W.device out.old) (W.device out.new) (slice_range bytes.now from to) result }
    {
        if from == self.to {
            self.to = to;
            return Ok(());
        }
        self.flush(bytes, out)?;
        self.from = from;
        self.to = to;
        Ok(())
    }

    /// Queues the bytes from `from` up to `to` (exclusive), without the `n` bytes after the first,
    /// as one piece or two. A piece that comes right after the pending text becomes part of it;
    /// otherwise that is written first, and the piece is the pending text. Fails if a write does.
    #[inline(always)]
    pub(crate) fn queue_parts<W: Sink>(
        &mut self,
        bytes: &[u8],
        from: usize,
        to: usize,
        n: usize,
        out: &mut W,
    ) -> Result<(), WriteFailed>
        requires failures { (W.device out.old).failures < 2 ^ 64 - 1 }
        requires part { IsPart bytes.now self.old }
        requires within { (from + 1 + n ≤ to) × (to ≤ length bytes.now) }
        ensures { PutsBehind bytes.now self.old self.new
            (W.device out.old) (W.device out.new) (bytes_without bytes.now from to n) result }
    {
        if n == 0 {
            return self.queue(bytes, from, to, out);
        }
        self.queue(bytes, from, from + 1, out)?;
        self.queue(bytes, from + 1 + n, to, out)
    }

    /// Queues a line: the bytes from `from` up to `to - 1` (exclusive), without the `n` bytes after
    /// the first, and a line feed in place of the byte at `to - 1`.
    ///
    /// If that byte is a line feed already, the bytes become pending text, by `queue_parts`.
    /// Otherwise the pending text is written, and then the line. Fails if a write does.
    #[inline(always)]
    pub(crate) fn queue_line<W: Sink>(
        &mut self,
        bytes: &[u8],
        from: usize,
        to: usize,
        n: usize,
        out: &mut W,
    ) -> Result<(), WriteFailed>
        requires failures { (W.device out.old).failures < 2 ^ 64 - 1 }
        requires part { IsPart bytes.now self.old }
        requires within { (from + 2 + n ≤ to) × (to ≤ length bytes.now) }
        ensures { PutsBehind bytes.now self.old self.new
            (W.device out.old) (W.device out.new) (line_without bytes.now from to n) result }
    {
        let last = to - 1;
        if bytes[last] == b'\n' {
            return self.queue_parts(bytes, from, to, n, out);
        }
        self.flush(bytes, out)?;
        // With CR LF, this is each change of a scalar that has a code of one byte.
        if n == 0 && to == from + 3 {
            let line = Few {
                bytes: [bytes[from], bytes[from + 1], b'\n', 0, 0, 0, 0, 0],
                len: 3,
            };
            return put_few(out, line);
        }
        put_with_line_feed(bytes, from, last, n, out)
    }

    /// Queues the line of `time`. If `from` is less than `to`, the bytes from `from` up to `to - 1`
    /// (exclusive), and a line feed, are that line, and `queue_line` takes it. Otherwise the
    /// pending text is written, and then the line. Fails if a write does.
    #[inline(always)]
    pub(crate) fn queue_time<W: Sink>(
        &mut self,
        time: u64,
        bytes: &[u8],
        from: usize,
        to: usize,
        out: &mut W,
    ) -> Result<(), WriteFailed>
        requires failures { (W.device out.old).failures < 2 ^ 64 - 1 }
        requires part { IsPart bytes.now self.old }
        requires line { IsLine bytes.now (from, to) time }
        ensures { PutsBehind bytes.now self.old self.new
            (W.device out.old) (W.device out.new) (time_line time) result }
    {
        if from < to {
            return self.queue_line(bytes, from, to, 0, out);
        }
        self.flush(bytes, out)?;
        put_time(time, out)
    }
}
