// An output that cannot be flushed.
use super::command_lines::words_of;
use std::alloc::{AllocError, Global};
use std::hash::{BuildHasherDefault, FoldHasher};
use vcd_host::Buffered;
use vcd_program::{Memory, Vcdkit, run_program};
use vcd_text::Watch;
use vcd_text::doubles::Narrow;

// The status and the message of these words over this input, if the output cannot be flushed.
fn run_unflushed(alloc: Global, word: &str, input: &[u8]) -> Result<(u8, Vec<u8>), AllocError> {
    let words = words_of(alloc, &[word])?;
    let mut memory = Memory {
        files: &[],
        input,
        opened: Vec::new(alloc),
    };
    let mut out = Buffered::new(alloc, Narrow::new(0))?;
    let mut err = Watch::new(Vec::new(alloc));
    let hasher: BuildHasherDefault<FoldHasher> = BuildHasherDefault::new();
    let status = run_program::<Vcdkit, _, _, _, _>(
        alloc,
        words.as_slice(),
        &mut memory,
        &mut out,
        &mut err,
        &hasher,
    );
    Ok((status, err.device))
}

const LINE: &[u8] = b"vcdkit: write failed\n";

const DUMP: &[u8] = b"$timescale 1ns $end $var wire 1 ! a $end $enddefinitions $end\n#5\n1!\n";

// A job that succeeds, and the version.
#[test]
fn a_flush_that_fails_is_a_failed_write(rt: HostRuntime) {
    for word in ["check", "--version"] {
        let left = run_unflushed(rt.alloc(), word, DUMP).map(|(status, message)| (
            status,
            message.as_slice() == LINE,
        ));
        assert_eq!(rt; left, Ok((3, true)), "of {word}");
    }
}
