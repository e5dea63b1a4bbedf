//! The tokens that lie completely in a chunk: a caller's loop reads them without a change of the
//! feed.
ghost use Rattle.std.specs.Prelude.{◌≡◌, ◌≢◌, ℕ, ◌+◌, ◌-◌, ◌^◌, ◌<◌, ◌≤◌, true, false, List, length, slice_index, IfSome, None, Some};
ghost use Rattle.vcd_text.specs.Names.{AreWhite, BitsAreWhite, IsRun, bit_at, is_white_at, is_white_space};

use crate::scan::{is_white_space, low_16, lowest, white_64, without};

// White space that was seen ahead. Each byte before `next` was looked at.
#[derive(Clone, Copy)]
pub(crate) struct White {
    // Bit k is set if byte `next - 64 + k` is white and still ahead.
    pub(crate) bits: u64,
    // The offset after the last byte that was looked at.
    pub(crate) next: usize,
}

impl White {
    /// Returns a `White` that knows no white byte: no byte from offset `start` of the chunk on was
    /// looked at.
    #[inline(always)]
    pub(crate) fn unknown(start: usize) -> Self
        ensures next { result.next ≡ start }
        ensures bits { (chunk : List ℕ) (at stop : ℕ) → start ≤ at → start ≤ stop
            → BitsAreWhite chunk at stop result }
    {
        White {
            bits: 0,
            next: start,
        }
    }

    /// Returns whether the first white byte that is known ahead is the one at offset `at` of the
    /// chunk. Some white byte has to be known (`bits` is not 0).
    #[inline(always)]
    fn begins_at(self, at: usize) -> bool
        requires some { self.bits ≢ 0 }
        requires next { self.next + 64 < 2 ^ 64 }
        requires ahead { (k : ℕ) → bit_at self.bits k ≡ 1 → at + 64 ≤ self.next + k }
        ensures near { result ≡ true → self.next ≤ at + 64 }
        ensures set { result ≡ true → bit_at self.bits (at + 64 - self.next) ≡ 1 }
        ensures white { result ≡ true → (chunk : List ℕ) (stop : ℕ) → BitsAreWhite chunk at stop self
            → (at < stop) × (is_white_space (slice_index chunk at) ≡ true) }
        ensures none { result ≡ false → (k : ℕ) → bit_at self.bits k ≡ 1 → at + 64 < self.next + k }
    {
        self.next + lowest(self.bits) - 64 == at
    }

    /// Returns this `White` without the first of its white bytes. Some white byte has to be known
    /// (`bits` is not 0).
    #[inline(always)]
    fn without_first(self) -> White
        requires some { self.bits ≢ 0 }
        ensures next { result.next ≡ self.next }
        ensures bits { (chunk : List ℕ) (at stop : ℕ) → self.next ≤ at + 64
            → bit_at self.bits (at + 64 - self.next) ≡ 1 → BitsAreWhite chunk at stop self
            → (at < self.next) × BitsAreWhite chunk (at + 1) stop result }
    {
        White {
            bits: without(self.bits, lowest(self.bits)),
            next: self.next,
        }
    }

    /// Returns a `White` that knows only one white byte: the one just before offset `next` of the
    /// chunk.
    #[inline(always)]
    fn before(next: usize) -> Self
        ensures next { result.next ≡ next }
        ensures bit { (k : ℕ) → bit_at result.bits k ≡ 1 → k ≡ 63 }
        ensures set { bit_at result.bits 63 ≡ 1 }
    {
        White {
            bits: 1 << 63,
            next,
        }
    }
}

/// The tokens ahead in a feed's chunk, up to one for which the feed itself is needed. A copy of it
/// is a position to go back to.
// In a caller's loop these fields are registers, and the feed counts line feeds once for all tokens
// (`count_line_feeds`).
#[derive(Clone, Copy)]
pub struct Ahead<'a> {
    bytes: &'a [u8],
    // How many bytes it has moved past. The next token begins here, or after the white bytes that
    // begin here.
    at: usize,
    limit: usize,
    white: White,
    ghost bits: { BitsAreWhite bytes.now at (length bytes.now) white },
    ghost order: { at ≤ white.next },
}

impl<'a> Ahead<'a> {
    ghost use Rattle.vcd_text.specs.Ahead.{IsNearEnd, TakesToken, bytes_of, longest_of, passed_of, start_of};

    /// Returns a look-ahead that begins at the first of these bytes. It returns no token of more
    /// than `limit` bytes.
    #[inline(always)]
    pub(crate) fn new(bytes: &'a [u8], limit: usize) -> Ahead<'a>
        ensures bytes { bytes_of result ≡ bytes.now }
        ensures limit { longest_of result ≡ limit }
        ensures passed { passed_of result ≡ 0 }
    {
        Ahead {
            bytes,
            at: 0,
            limit,
            white: White::unknown(0),
        }
    }

    /// Returns how many bytes this look-ahead has moved past: all up to the end of the last token
    /// that it returned, and one white byte after it; 0 before the first. `Feed::pass` takes this
    /// number.
    #[inline(always)]
    pub fn passed(&self) -> usize
        ensures passed { result ≡ passed_of self.now }
        ensures within { result ≤ length (bytes_of self.now) }
    {
        self.at
    }

    /// Returns all bytes that this look-ahead was made over, also those that it has moved past, so
    /// that a caller can look at more than one token.
    #[inline(always)]
    pub fn bytes(&self) -> &'a [u8]
        ensures { result.now ≡ bytes_of self.now }
    {
        self.bytes
    }

    /// Returns the next token, and moves past it, the white bytes before it, and one white byte
    /// after it.
    ///
    /// `None` if it does not lie completely in the chunk or is longer than the limit, and maybe if
    /// it ends fewer than 64 bytes before the end of the chunk; then nothing has changed, and
    /// `Feed::next` reads it.
    // Mostly no white byte comes before the token, or only one: the LF of CR LF. Both cases ask
    // only the mask, and no byte. With a loop over the white bytes here, `check` of vectors takes
    // 1 to 3 % more instructions, and of sigrok-cli's dumps 6 %.
    #[inline(always)]
    pub fn next(&mut self) -> Option<&'a [u8]>
        ensures takes { IfSome result (λ token. TakesToken self.old self.new token.now) }
        ensures within { passed_of self.new ≤ length (bytes_of self.old) }
        ensures none { result ≡ None → self.new ≡ self.old }
        ensures needed { result ≡ None → IsNearEnd self.old }
    {
        let at = self.at;
        let white = white_ahead(self.bytes, self.white)?;
        if !white.begins_at(at) {
            return self.take(at, white);
        }
        let mut start = at + 1;
        let mut white = white_ahead(self.bytes, white.without_first())?;
        if white.begins_at(start) {
            start = past_white(self.bytes, start);
            white = white_ahead(self.bytes, White::unknown(start))?;
        }
        self.take(start, white)
    }

    /// Returns the next token, if it has two bytes, begins at the next byte, and is followed by a
    /// line feed, and moves past these three bytes. If `CR_LF` is true, a line feed has to come
    /// before the token and a carriage return after it, and it moves past these four bytes.
    ///
    /// Otherwise `None`, also if the token has a byte below the space (32) or the limit is less
    /// than 2; then nothing has changed, and `next` may return one. It looks only at these bytes.
    /// If it returns a token, it forgets which white bytes were seen ahead. It is for a run of such
    /// tokens.
    #[inline(always)]
    pub fn next_short<const CR_LF: bool>(&mut self) -> Option<&'a [u8]>
        ensures takes { IfSome result (λ token. TakesToken self.old self.new token.now) }
        ensures within { passed_of self.new ≤ length (bytes_of self.old) }
        ensures none { result ≡ None → self.new ≡ self.old }
    {
        let at = self.at;
        if !is_two_byte_line::<CR_LF>(self.bytes, at) {
            return None;
        }
        if CR_LF {
            return self.take(at + 1, White::before(at + 4));
        }
        self.take(at, White::before(at + 3))
    }

    /// Returns the next token, if it begins at the next byte, has at most 15 bytes, and is followed
    /// by a line feed, and moves past it and the line feed. If `CR_LF` is true, a line feed has to
    /// come before the token and a carriage return after it, and it moves past all of these.
    ///
    /// Otherwise `None`, also if fewer than 16 bytes are left from the first byte of the token on,
    /// if the token has a byte below the space (32), or if it is longer than the limit; then
    /// nothing has changed, and `next` may return one. It looks at 16 bytes in one step. If it
    /// returns a token, it forgets which white bytes were seen ahead. It is for a run of lines.
    #[inline(always)]
    pub fn next_in_16<const CR_LF: bool>(&mut self) -> Option<&'a [u8]>
        ensures takes { IfSome result (λ token. TakesToken self.old self.new token.now) }
        ensures within { passed_of self.new ≤ length (bytes_of self.old) }
        ensures start { CR_LF ≡ false
            → IfSome result (λ token. start_of self.new token.now ≡ passed_of self.old) }
        ensures none { result ≡ None → self.new ≡ self.old }
    {
        let start = line_start::<CR_LF>(self.bytes, self.at)?;
        if self.bytes.len() - start < 16 {
            return None;
        }
        let low = low_16(self.bytes, start);
        if low == 0 {
            return None;
        }
        let len = lowest(low);
        if len == 0 || self.bytes[start + len] != end_of_token::<CR_LF>() {
            return None;
        }
        self.take(start, White::before(start + len + 1))
    }

    /// Returns the next token, also near the end of the chunk, and moves past it, the white bytes
    /// before it, and one white byte after it. `None` if it does not lie completely in the chunk or
    /// is longer than the limit; then nothing has changed.
    ///
    /// It looks at one byte after the other, so it is only for the last bytes of a chunk.
    pub fn next_slowly(&mut self) -> Option<&'a [u8]>
        ensures takes { IfSome result (λ token. TakesToken self.old self.new token.now) }
        ensures within { passed_of self.new ≤ length (bytes_of self.old) }
        ensures none { result ≡ None → self.new ≡ self.old }
    {
        let start = past_white(self.bytes, self.at);
        let end = start + run_len(&self.bytes[start..]);
        if end == start || end == self.bytes.len() {
            return None;
        }
        self.take(start, White::before(end + 1))
    }

    /// Returns whether `next_short` would return a token.
    ///
    /// Once it is true, the limit is 2 or more, so a loop need not ask for that again.
    #[inline(always)]
    pub fn two_byte_line_comes<const CR_LF: bool>(&self) -> bool
        ensures line_feed { result ≡ true → CR_LF ≡ false
            → IsRun (longest_of self.now) (bytes_of self.now) (passed_of self.now) 2 }
        ensures cr_lf { result ≡ true → CR_LF ≡ true
            → AreWhite (bytes_of self.now) (passed_of self.now) (passed_of self.now + 1)
            × IsRun (longest_of self.now) (bytes_of self.now) (passed_of self.now + 1) 2 }
    {
        self.limit >= 2 && is_two_byte_line::<CR_LF>(self.bytes, self.at)
    }

    /// Forgets which white bytes were seen ahead, and stays where it is. Call it before a loop over
    /// `next_short` and `next_in_16`, which do not need that knowledge.
    #[inline(always)]
    pub fn forget(&mut self)
        ensures { (passed_of self.new ≡ passed_of self.old) × (bytes_of self.new ≡ bytes_of self.old)
            × (longest_of self.new ≡ longest_of self.old) }
    {
        *self = Ahead {
            bytes: self.bytes,
            at: self.at,
            limit: self.limit,
            white: White::unknown(self.at),
        };
    }

    /// Returns the token from offset `start` up to the first byte that `white` knows, and moves
    /// past the token and that byte. `white` knows at least one byte, and the first is after
    /// `start`. All bytes from the current position to `start` are white. `None` if the token is
    /// longer than the limit; then nothing has changed.
    #[inline(always)]
    fn take(&mut self, start: usize, white: White) -> Option<&'a [u8]>
        requires order { start ≤ white.next }
        requires before { AreWhite (bytes_of self.old) (passed_of self.old) start }
        requires bits { BitsAreWhite (bytes_of self.old) start (length (bytes_of self.old)) white }
        requires some { white.bits ≢ 0 }
        requires token { (k : ℕ) → bit_at white.bits k ≡ 1 → start + 64 < white.next + k }
        ensures takes { IfSome result (λ token. TakesToken self.old self.new token.now) }
        ensures within { passed_of self.new ≤ length (bytes_of self.old) }
        ensures start { IfSome result (λ token. start_of self.new token.now ≡ start) }
        ensures none { result ≡ None → self.new ≡ self.old }
        ensures needed { result ≡ None → IsNearEnd self.old }
    {
        let bit = lowest(white.bits);
        let end = white.next + bit - 64;
        if end - start > self.limit {
            return None;
        }
        *self = Ahead {
            bytes: self.bytes,
            at: end + 1,
            limit: self.limit,
            white: White {
                bits: without(white.bits, bit),
                next: white.next,
            },
        };
        Some(&self.bytes[start..end])
    }
}

/// Returns the byte that comes right after the last token of a line: a line feed, or a carriage
/// return if `CR_LF` is true.
#[inline(always)]
fn end_of_token<const CR_LF: bool>() -> u8
    ensures { is_white_space result ≡ true }
{
    if CR_LF {
        return b'\r';
    }
    b'\n'
}

/// Returns the offset of the first byte of the line that comes next at `at`. That is `at`; or, if
/// `CR_LF` is true, the offset after the line feed at `at`, and `None` if there is none.
#[inline(always)]
fn line_start<const CR_LF: bool>(bytes: &[u8], at: usize) -> Option<usize>
    requires { at ≤ length bytes.now }
    ensures within { IfSome result (λ start. start ≤ length bytes.now) }
    ensures white { IfSome result (λ start. AreWhite bytes.now at start) }
    ensures start { CR_LF ≡ false → IfSome result (λ start. start ≡ at) }
{
    if !CR_LF {
        return Some(at);
    }
    if at < bytes.len() && bytes[at] == b'\n' {
        return Some(at + 1);
    }
    None
}

/// Returns whether two bytes above the space (32) and a line feed come at offset `at`; or, if
/// `CR_LF` is true, a line feed, two such bytes and a carriage return. It is false if fewer bytes
/// are left.
// The first byte of the line is asked last. A caller that asks whether it is `0` or `1` then gets
// one comparison for both: in another order, `check` of scalars takes 9 % more instructions.
#[inline(always)]
fn is_two_byte_line<const CR_LF: bool>(bytes: &[u8], at: usize) -> bool
    requires { at ≤ length bytes.now }
    ensures line_feed { result ≡ true → CR_LF ≡ false → IsRun 2 bytes.now at 2 }
    ensures cr_lf { result ≡ true → CR_LF ≡ true
        → AreWhite bytes.now at (at + 1) × IsRun 2 bytes.now (at + 1) 2 }
{
    if CR_LF {
        return bytes.len() - at >= 4
            && bytes[at + 3] == b'\r'
            && bytes[at] == b'\n'
            && bytes[at + 2] > b' '
            && bytes[at + 1] > b' ';
    }
    bytes.len() - at >= 3 && bytes[at + 2] == b'\n' && bytes[at + 1] > b' ' && bytes[at] > b' '
}

/// Returns the offset of the first byte from offset `from` on, which is at most the length, that is
/// not white, or the length if there is none.
// Not inlined, and returns only a number, like `look_ahead`.
#[inline(never)]
fn past_white(bytes: &[u8], from: usize) -> usize
    requires { from ≤ length bytes.now }
    ensures within { result ≤ length bytes.now }
    ensures white { AreWhite bytes.now from result }
    ensures stops { result < length bytes.now
        → is_white_space (slice_index bytes.now result) ≡ false }
{
    let mut at = from;
    while at < bytes.len() && is_white_space(bytes[at]) {
        at += 1;
    }
    at
}

/// Returns white bytes ahead, at least one: `known`, if that knows one. Otherwise it looks at the
/// bytes from offset `known.next` on, 64 at a time, and returns all white bytes of the first 64
/// that have any.
///
/// `None` if no complete 64 bytes have any; the last bytes, fewer than 64, may still have some.
// Most tokens end at a white byte that is already known. Then no bytes are looked at.
#[inline(always)]
fn white_ahead(bytes: &[u8], known: White) -> Option<White>
    requires { known.next ≤ length bytes.now }
    ensures some { IfSome result (λ white. white.bits ≢ 0) }
    ensures bits { IfSome result (λ white. (at : ℕ) → at ≤ known.next
        → BitsAreWhite bytes.now at (length bytes.now) known
        → BitsAreWhite bytes.now at (length bytes.now) white) }
    ensures next { IfSome result (λ white. (known.next ≤ white.next) × (white.next ≤ length bytes.now)) }
    ensures none { result ≡ None → (next : ℕ) × (length bytes.now < next + 64)
        × ((at : ℕ) → at ≤ known.next → BitsAreWhite bytes.now at (length bytes.now) known
        → (j : ℕ) → at ≤ j → j < next
        → is_white_space (slice_index bytes.now j) ≡ false) }
{
    if known.bits != 0 {
        return Some(known);
    }
    let white = look_ahead(bytes, known.next);
    if white.bits == 0 {
        return None;
    }
    Some(white)
}

/// Looks at the bytes from offset `from` on, 64 at a time, and returns all white bytes of the first
/// 64 that have any. Its `bits` are 0 if no complete 64 bytes have any; the last bytes, fewer than
/// 64, may still have some. `from` is at most the length.
#[inline(never)]
fn look_ahead(bytes: &[u8], from: usize) -> White
    requires { from ≤ length bytes.now }
    ensures bits { result.bits ≢ 0 → (at : ℕ) → at ≤ from
        → ((j : ℕ) → at ≤ j → j < from → is_white_space (slice_index bytes.now j) ≡ false)
        → BitsAreWhite bytes.now at (length bytes.now) result }
    ensures next { (from ≤ result.next) × (result.next ≤ length bytes.now) }
    ensures none { result.bits ≡ 0 → (length bytes.now < result.next + 64)
        × ((j : ℕ) → from ≤ j → j < result.next
        → is_white_space (slice_index bytes.now j) ≡ false) }
{
    let mut next = from;
    while bytes.len() - next >= 64 {
        let bits = white_64(bytes, next);
        next += 64;
        if bits != 0 {
            return White { bits, next };
        }
    }
    White { bits: 0, next }
}

/// Returns how many bytes come before the first white byte; all of them if none is white.
pub(crate) fn run_len(bytes: &[u8]) -> usize
    ensures within { result ≤ length bytes.now }
    ensures other { (k : ℕ) → k < result → is_white_at bytes.now k ≡ false }
    ensures stops { result < length bytes.now → is_white_at bytes.now result ≡ true }
{
    let white = look_ahead(bytes, 0);
    if white.bits != 0 {
        return white.next + lowest(white.bits) - 64;
    }
    let mut at = white.next;
    while at < bytes.len() && !is_white_space(bytes[at]) {
        at += 1;
    }
    at
}
