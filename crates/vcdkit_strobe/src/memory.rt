//! The program over files in memory.
ghost use Rattle.std.specs.Prelude.{IfOk, map, string_bytes};
ghost use Rattle.vcd_program.specs.Memory.{end_of, IsLeftBy};
ghost use Rattle.vcdkit_strobe.specs.Whole.{strobe_program};

use crate::program::VcdkitStrobe;
use std::alloc::{AllocError, Global};
use vcd_program::{Left, MemoryFile, run_in_memory};

/// Runs `vcdkit-strobe` with these arguments, its own name first among them, over files in memory,
/// as `run_in_memory` does. The contract names the definitions: output, message and status are the
/// `strobe` that the words ask for.
pub fn strobe_in_memory(
    alloc: Global,
    words: &[String],
    files: &[MemoryFile<'_>],
    input: &[u8],
) -> Result<Left, AllocError>
    ensures { IfOk result (λ left. IsLeftBy strobe_program
        (map string_bytes words.now) files.now input.now (end_of left)) }
{
    run_in_memory::<VcdkitStrobe>(alloc, words, files, input)
}
