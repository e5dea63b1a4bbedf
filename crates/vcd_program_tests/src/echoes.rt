// What the program `echo` leaves over a host in memory.
use super::command_lines::words_of;
use super::echo::Echo;
use std::alloc::{AllocError, Global};
use vcd_program::run_in_memory;

// Whether these words leave this output and this status, and open nothing.
fn leaves(alloc: Global, words: &[&str], output: &[u8], status: u8) -> Result<bool, AllocError> {
    let words = words_of(alloc, words)?;
    let left = run_in_memory::<Echo>(alloc, words.as_slice(), &[], b"")?;
    Ok(left.output.as_slice() == output && left.status == status && left.opened.is_empty())
}

#[test]
fn another_program_runs_over_the_same_layer(rt: HostRuntime) {
    assert_eq!(rt; leaves(rt.alloc(), &["a line"], b"a line\n", 0), Ok(true));
    assert_eq!(rt; leaves(rt.alloc(), &[], b"", 2), Ok(true));
    assert_eq!(rt; leaves(rt.alloc(), &["a", "b"], b"", 2), Ok(true));
}
