//! The program as functions for callers in C, over memory that they lend.
//!
//! `vcdkit_run` runs one of the seven commands, by the words of its command line, over files that
//! are bytes, and writes output and message into lent bytes. They are what the
//! program writes over a host in memory (`RunsInto`). `vcdkit_changes` finds the changes of a
//! variable, as numbers (`FindsIn` of `vcd_changes`).
#![tactic(auto)]

mod fill;
mod lent;
mod seed;
mod words;

ghost use Rattle.std.specs.Prelude.{◌≤◌, List, length, map};
ghost use Rattle.vcdkit_c.specs.Names.{BodyItem, bytes_of, FindsIn, GoesOnAt, RunsInto, StaysAt};

use crate::fill::fill;
use crate::seed::Seed;
use crate::words::{Refused, words_of};
pub use lent::Lent;
use std::alloc::Global;
use vcd_changes::{ChangeRow, Reading, changes};
use vcd_program::{MemoryFile, Vcdkit, run_into_memory};

/// The message if an argument is not UTF-8.
const BAD_WORDS: &[u8] = b"vcdkit: bad words\n";

/// The status if the program did not begin, or its output cannot be counted.
const NOT_RUN: u8 = 4;

/// Runs the program with these arguments, without its own name, over files in memory, and returns
/// its exit status; or 4 if memory ran out before it began, or if 2^63 bytes or more found no room.
///
/// `input` is standard input. Identifier codes are hashed with `seed`. What is written does not
/// depend on it, and whoever does not know it cannot make a dump whose codes are slow to find. The
/// output is written to `out`, as far as there is room, and `out_used` becomes its length. If that
/// is more than the length of `out`, the rest is lost: `out` would have to be as long as that. The
/// same holds of the message, `err` and `err_used`. If it returns 4, all of these may have any
/// values.
#[unsafe(no_mangle)]
pub extern "C" fn vcdkit_run(
    alloc: Global,
    words: &[Lent<'_>],
    input: &[u8],
    files: &[MemoryFile<'_>],
    seed: u64,
    out: &mut [u8],
    out_used: &mut u64,
    err: &mut [u8],
    err_used: &mut u64,
) -> u8
    ensures { RunsInto (map bytes_of words.now) files.now input.now
        out.new out_used.new err.new err_used.new result }
{
    match words_of(alloc, words) {
        Ok(words) => {
            let hasher = Seed::new(seed);
            let words = words.as_slice();
            match run_into_memory::<Vcdkit, _>(alloc, words, files, input, out, err, &hasher) {
                Some(filled) => {
                    *out_used = filled.output;
                    *err_used = filled.message;
                    filled.status
                }
                None => NOT_RUN,
            }
        }
        Err(Refused::BadWords) => {
            *out_used = 0;
            *err_used = fill(err, BAD_WORDS);
            2
        }
        Err(Refused::OutOfMemory) => NOT_RUN,
    }
}

/// Fills `rows` with the changes of the variables of `dump`, a whole dump, with the identifier code
/// `code`, from `reading.place` on, as far as there are rows, and returns the status, as `changes`
/// of `vcd_changes` does. `reading` says how many rows were filled, and where the next call
/// continues. Identifier codes are hashed with `seed`; the rows do not depend on it.
#[unsafe(no_mangle)]
pub extern "C" fn vcdkit_changes(
    alloc: Global,
    dump: &[u8],
    code: &[u8],
    seed: u64,
    reading: &mut Reading,
    rows: &mut [ChangeRow],
) -> u8
    ensures finds { (items : List BodyItem) → GoesOnAt dump.now items reading.old.place
        → FindsIn dump.now items code.now reading.new rows.new result }
    ensures most { reading.new.count ≤ length rows.new }
    ensures place { StaysAt reading.old reading.new result }
{
    changes(alloc, dump, code, &Seed::new(seed), reading, rows)
}
