//! Callers that rely on each clause of the programs' contracts, so that none of them can get lost
//! unnoticed.
ghost use Rattle.std.specs.Prelude.{◌-◌, ◌^◌, ◌<◌, IfOk, map, string_bytes};
ghost use Rattle.vcd_program.specs.Memory.{end_of};
ghost use Rattle.vcd_program_tests.specs.Beyond.{compare_told, ReliesOnCompare, ReliesOnStrobe, strobe_told};
ghost use Rattle.vcd_program_tests.specs.Relies.{ReliesOnProcess, vcdkit_told};

use std::alloc::{AllocError, Global};
use vcd_host::Output;
use vcd_program::{Left, MemoryFile, Process, Vcdkit, run_process};
use vcdkit_compare::{VcdkitCompare, compare_in_memory};
use vcdkit_strobe::{VcdkitStrobe, strobe_in_memory};

/// Runs `vcdkit` over the process, as `run_process` does. The contract says what callers rely on,
/// in words of its own.
pub fn run_relied_on<P: Process, W: Output, E: Output>(
    alloc: Global,
    process: &mut P,
    out: &mut W,
    err: &mut E,
) -> u8
    requires out_failures { (W.device out.old).failures < 2 ^ 64 - 1 }
    requires err_failures { (E.device err.old).failures < 2 ^ 64 - 2 }
    ensures { ReliesOnProcess vcdkit_told P.Process P.File.Read P.Input.Read W.Sink W.flushes
        E.Sink E.flushes process.old process.new out.old out.new err.old err.new result }
{
    run_process::<Vcdkit, _, _, _>(alloc, process, out, err)
}

/// Runs `vcdkit-compare` over the process, as `run_process` does.
pub fn run_compare_relied_on<P: Process, W: Output, E: Output>(
    alloc: Global,
    process: &mut P,
    out: &mut W,
    err: &mut E,
) -> u8
    requires out_failures { (W.device out.old).failures < 2 ^ 64 - 1 }
    requires err_failures { (E.device err.old).failures < 2 ^ 64 - 2 }
    ensures { ReliesOnProcess compare_told P.Process P.File.Read P.Input.Read W.Sink W.flushes
        E.Sink E.flushes process.old process.new out.old out.new err.old err.new result }
{
    run_process::<VcdkitCompare, _, _, _>(alloc, process, out, err)
}

/// Runs `vcdkit-strobe` over the process, as `run_process` does.
pub fn run_strobe_relied_on<P: Process, W: Output, E: Output>(
    alloc: Global,
    process: &mut P,
    out: &mut W,
    err: &mut E,
) -> u8
    requires out_failures { (W.device out.old).failures < 2 ^ 64 - 1 }
    requires err_failures { (E.device err.old).failures < 2 ^ 64 - 2 }
    ensures { ReliesOnProcess strobe_told P.Process P.File.Read P.Input.Read W.Sink W.flushes
        E.Sink E.flushes process.old process.new out.old out.new err.old err.new result }
{
    run_process::<VcdkitStrobe, _, _, _>(alloc, process, out, err)
}

/// Runs `vcdkit-compare` over files in memory, as `compare_in_memory` does.
pub fn compare_relied_on(
    alloc: Global,
    words: &[String],
    files: &[MemoryFile<'_>],
    input: &[u8],
) -> Result<Left, AllocError>
    ensures { IfOk result (λ left. ReliesOnCompare
        (map string_bytes words.now) files.now input.now (end_of left)) }
{
    compare_in_memory(alloc, words, files, input)
}

/// Runs `vcdkit-strobe` over files in memory, as `strobe_in_memory` does.
pub fn strobe_relied_on(
    alloc: Global,
    words: &[String],
    files: &[MemoryFile<'_>],
    input: &[u8],
) -> Result<Left, AllocError>
    ensures { IfOk result (λ left. ReliesOnStrobe
        (map string_bytes words.now) files.now input.now (end_of left)) }
{
    strobe_in_memory(alloc, words, files, input)
}
