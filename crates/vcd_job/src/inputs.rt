//! The inputs of a job: the memory of their windows, and their headers.
ghost use Rattle.std.specs.Prelude.{◌≡◌, ◌≢◌, ◌*◌, ◌-◌, ◌^◌, ◌<◌, ◌≤◌, ℕ, All, IfOk, OnOk, length, map, vec_len};
ghost use Rattle.vcd_job.specs.Names.{AddsBegun, AreLentWithin, BeginsAmong, BeginsBy, chunk_len_of, CountsAt, CountsReadsOf, EndsAtRead, EndsAtReadOf, failure_of, HasNotFailed, HasParts, IsNewIn, IsNewOver, limit_of, MayLend, OpensAll, OpensInput, SameLengths, SameLoans, SameParts, source_of, writes_failed};

use crate::failure::Failure;
use std::alloc::{AllocError, Global};
use std::hash::BuildHasher;
use vcd_head::{Head, read_head_with_hasher};
use vcd_merge::{Seat, Windows};
use vcd_text::{Feed, Source};

/// How many declarations all inputs of a run may have.
pub const MAX_DECLARATIONS: u64 = 16_777_216;

/// The memory of the windows of all inputs. Each window has one equal part for each input.
#[derive(Drop)]
pub struct WindowMemory {
    /// How much is read in one call.
    pub chunks: Vec<u8>,
    /// Where a token is gathered.
    pub tokens: Vec<u8>,
    /// Where a value is kept.
    pub values: Vec<u8>,
}

/// How an input is read.
#[derive(Clone, Copy, PartialEq, Eq, Debug)]
pub struct Lengths {
    /// How long a token may be, in bytes.
    pub limit: usize,
    /// How much is read in one call, in bytes.
    pub chunk: usize,
    pub ghost limit_in_range: { (64 ≤ limit) × (limit ≤ 16777216) },
    pub ghost chunk_in_range: { (1 ≤ chunk) × (chunk ≤ 65536) },
}

/// Returns new memory for the buffers of this many inputs, at most 64, each of which is read with
/// these lengths. Fails if there is none.
pub fn windows_for(
    alloc: Global,
    lengths: Lengths,
    inputs: usize,
) -> Result<WindowMemory, AllocError>
    requires { inputs ≤ 64 }
    ensures { IfOk result (λ memory. (vec_len memory.chunks ≡ inputs * lengths.chunk)
        × (vec_len memory.tokens ≡ inputs * lengths.limit)
        × (vec_len memory.values ≡ inputs * lengths.limit)) }
{
    Ok(WindowMemory {
        chunks: vec![in alloc; 0u8; inputs * lengths.chunk]?,
        tokens: vec![in alloc; 0u8; inputs * lengths.limit]?,
        values: vec![in alloc; 0u8; inputs * lengths.limit]?,
    })
}

/// How headers are read.
#[derive(Drop)]
pub struct Reading<'h, B> {
    /// The allocator for them.
    pub alloc: Global,
    /// The hasher of their codes.
    pub hasher: &'h B,
    /// How many declarations may follow.
    pub most: u64,
    ghost within: { most ≤ 16777216 },
}

/// Reads the header of the input at index `input` of all, and returns it. `reading` has the
/// allocator, the hasher of codes, and how many declarations are allowed. `feed` is at the
/// beginning of that input; after it, it is right after the header. Fails at a fault of the header,
/// if a read fails, or if memory runs out.
pub fn read_head_of<S: Source, B: BuildHasher>(
    reading: &Reading<'_, B>,
    input: usize,
    feed: &mut Feed<'_, '_, '_, '_, S>,
) -> Result<Head, Failure>
    requires failures { S.failures (source_of feed.old) < 2 ^ 64 - 1 }
    requires open { HasNotFailed feed.old }
    ensures reads { OpensInput reading.now.most input feed.old feed.new result }
    ensures failures { CountsAt S.failures input (source_of feed.old) (source_of feed.new) result }
    ensures last { EndsAtRead (S.last_failed (source_of feed.new)) (failure_of result) }
    ensures no_write { writes_failed (failure_of result) ≡ 0 }
    ensures open { OnOk result (HasNotFailed feed.new) }
    ensures lengths { (limit_of feed.new ≡ limit_of feed.old)
        × (chunk_len_of feed.new ≡ chunk_len_of feed.old) }
    ensures loans { SameLoans feed.old feed.new }
{
    match read_head_with_hasher(reading.alloc, feed, reading.most, reading.hasher) {
        Ok(head) => Ok(head),
        Err(fault) => Err(Failure::of_head(fault, input, feed.line())),
    }
}

/// An input whose header was read.
#[derive(Drop)]
pub struct BegunInput {
    pub head: Head,
    /// What is kept of the input between two of its items, its parked feed among it.
    pub seat: Seat,
}

/// Reads the header of the input at index `input` of all with its own reader and its parts of the
/// windows, and returns the header and the parked feed. `reading` has the allocator, the hasher of
/// codes, and how many declarations are allowed. Fails at a fault of the header, if a read fails,
/// or if memory runs out.
fn begin_input<S: Source, B: BuildHasher>(
    reading: &Reading<'_, B>,
    input: usize,
    reader: &mut S,
    chunk: &mut [u8],
    token: &mut [u8],
    value: &mut [u8],
) -> Result<BegunInput, Failure>
    requires failures { S.failures reader.old < 2 ^ 64 - 1 }
    requires lend { MayLend chunk.old token.old value.old }
    ensures begins { BeginsBy S.Source reading.now.most input (length token.old) (length chunk.old)
        reader.old reader.new chunk.new token.new result }
    ensures reads { CountsAt S.failures input reader.old reader.new result }
    ensures last { EndsAtRead (S.last_failed reader.new) (failure_of result) }
    ensures no_write { writes_failed (failure_of result) ≡ 0 }
    ensures seated { IfOk result (λ begun. IsNewOver (length chunk.old) (length token.old) begun.seat) }
{
    let mut feed = Feed::new(reader, chunk, token, value);
    let head = read_head_of(reading, input, &mut feed)?;
    let seat = Seat::new(feed.parked());
    Ok(BegunInput { head, seat })
}

/// Reads the header of the input at index `input` of `readers`, and returns the header and the
/// parked feed. `reading` has the allocator, the hasher of codes, and how many declarations are
/// allowed. Each of the slices in `windows` has one equal part for each reader; only the parts at
/// that index are used. Fails at a fault of the header, if a read fails, or if memory runs out.
fn begin_input_at<S: Source, B: BuildHasher>(
    reading: &Reading<'_, B>,
    input: usize,
    readers: &mut [S],
    windows: &mut Windows<'_>,
) -> Result<BegunInput, Failure>
    requires input { input < length readers.old }
    requires parts { HasParts (length readers.old) windows.old }
    requires failures { All (λ r. S.failures r < 2 ^ 64 - 1) readers.old }
    ensures begins { BeginsAmong S.Source reading.now.most input readers.old readers.new
        windows.old windows.new result }
    ensures others { (j : ℕ) → j ≢ input → SameParts (length readers.old) j windows.old windows.new }
    ensures lengths { SameLengths windows.old windows.new }
    ensures last { EndsAtReadOf (map S.last_failed readers.new) (failure_of result) }
    ensures no_write { writes_failed (failure_of result) ≡ 0 }
    ensures seated { IfOk result (λ begun. IsNewIn (length readers.old) windows.old begun.seat) }
{
    let chunk = windows.chunks.len() / readers.len();
    let limit = windows.tokens.len() / readers.len();
    let chunk_at = input * chunk;
    let token_at = input * limit;
    begin_input(
        reading,
        input,
        &mut readers[input],
        &mut windows.chunks[chunk_at..chunk_at + chunk],
        &mut windows.tokens[token_at..token_at + limit],
        &mut windows.values[token_at..token_at + limit],
    )
}

/// The inputs of a merge once their headers were read, in order.
#[derive(Drop)]
pub struct Inputs {
    pub heads: Vec<Head>,
    pub seats: Vec<Seat>,
}

impl Inputs {
    /// Adds an input, whose header was read, after the others. Fails if memory runs out; then its
    /// seat was not added.
    fn push(&mut self, begun: BegunInput) -> Result<(), AllocError>
        ensures { IfOk result (λ _. AddsBegun begun self.old self.new) }
    {
        self.heads.push(begun.head)?;
        self.seats.push(begun.seat)?;
        Ok(())
    }
}

/// Reads the headers of all inputs in order, and returns them with the parked feeds. Each of the
/// slices in `windows` has one equal part for each reader. All headers together may have 16,777,216
/// declarations. What they keep is within the bound, together with the windows. Fails at the first
/// header with a fault, at a failed read, or if memory runs out.
pub fn read_heads<S: Source, B: BuildHasher>(
    alloc: Global,
    readers: &mut [S],
    windows: &mut Windows<'_>,
    hasher: &B,
) -> Result<Inputs, Failure>
    requires some { 0 < length readers.old }
    requires parts { HasParts (length readers.old) windows.old }
    requires failures { All (λ r. S.failures r < 2 ^ 64 - 1) readers.old }
    ensures begins { OpensAll S.Source readers.old readers.new windows.old windows.new result }
    ensures reads { CountsReadsOf S.failures readers.old readers.new (failure_of result) }
    ensures last { EndsAtReadOf (map S.last_failed readers.new) (failure_of result) }
    ensures no_write { writes_failed (failure_of result) ≡ 0 }
    ensures lengths { SameLengths windows.old windows.new }
    ensures bound { IfOk result (λ inputs.
        AreLentWithin (length readers.old) windows.new inputs.heads.items) }
    ensures many { IfOk result (λ inputs. (length inputs.heads.items ≡ length readers.old)
        × (length inputs.seats.items ≡ length readers.old)) }
    ensures seated { IfOk result (λ inputs.
        All (λ seat. IsNewIn (length readers.old) windows.old seat) inputs.seats.items) }
{
    let mut inputs = Inputs {
        heads: Vec::new(alloc),
        seats: Vec::with_capacity(alloc, readers.len())?,
    };
    let mut most = MAX_DECLARATIONS;
    for input in 0..readers.len() {
        let reading = Reading {
            alloc,
            hasher,
            most,
        };
        let begun = begin_input_at(&reading, input, readers, windows)?;
        most = most.saturating_sub(begun.head.view().rows.len() as u64);
        inputs.push(begun)?;
    }
    Ok(inputs)
}
