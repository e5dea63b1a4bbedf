// Files of the machine that cannot be read: a failed read is not taken for the end of a dump, and
// no other file is opened.
use super::command_lines::words_of;
use std::alloc::AllocError;
use vcd_program::{Vcdkit, run_words_on_machine};
use vcd_text::Watch;

// A directory, and the memory of the process, of which nothing can be read at its first address.
// Both can be opened. There is no file of the last name, which is that of a device and a space.
static UNREADABLE: [(&str, &[u8]); 3] = [
    ("/", b"vcdkit: /: read failed\n"),
    ("/proc/self/mem", b"vcdkit: /proc/self/mem: read failed\n"),
    ("/dev/null ", b"vcdkit: /dev/null : cannot be opened\n"),
];

// The status and the message of a check of this file.
fn check(rt: &HostRuntime, name: &str) -> Result<(u8, Vec<u8>), AllocError> {
    let words = words_of(rt.alloc(), &["check", name])?;
    let mut err = Watch::new(Vec::new(rt.alloc()));
    let status = run_words_on_machine::<Vcdkit, _>(rt, words.as_slice(), &mut err);
    Ok((status, err.device))
}

#[test]
fn a_read_of_a_file_that_fails_is_said(rt: HostRuntime) {
    for (name, line) in &UNREADABLE {
        let left = check(&rt, name).map(|(status, message)| (status, message.as_slice() == *line));
        assert_eq!(rt; left, Ok((3, true)), "of {name}");
    }
}
