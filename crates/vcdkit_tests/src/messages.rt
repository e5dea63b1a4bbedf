// The lines on the error stream.
ghost use Rattle.std.specs.Prelude.{◌≤◌};

use vcd_text::doubles::Narrow;
use vcd_text::{Sink, Watch};
use vcdkit::{PROGRAM, UseFault, open_fault, use_fault, write_fault};

// Whether the error stream has this text, after this many failed writes.
fn is_held(err: &Watch<Narrow>, text: &[u8], failures: u64) -> bool {
    err.device.held() == text && Sink::failures(err) == failures
}

// Faults of words, their lines and their statuses.
static USE_FAULTS: [(UseFault<'static>, &[u8], u8); 8] = [
    (UseFault::BadWords, b"vcdkit: bad words\n", 2),
    (
        UseFault::BadLimit("6 4"),
        b"vcdkit: bad token limit: 6 4\n",
        2,
    ),
    (UseFault::BadTime("15NS"), b"vcdkit: bad time: 15NS\n", 2),
    (UseFault::FromAboveTo, b"vcdkit: --from is above --to\n", 2),
    (UseFault::NotRising, b"vcdkit: times must rise\n", 2),
    (UseFault::TooManyFiles, b"vcdkit: too many files\n", 2),
    (UseFault::InputTwice, b"vcdkit: standard input twice\n", 2),
    (UseFault::OutOfMemory, b"vcdkit: out of memory\n", 3),
];

// Whether a fault, with this much room for its line, writes this with this many failed writes, and
// has this status.
fn is_said(fault: UseFault<'_>, room: usize, line: &[u8], failures: u64, status: u8) -> bool
    requires { room ≤ 1024 }
{
    let mut err = Watch::new(Narrow::new(room));
    let answer = use_fault(PROGRAM, fault, &mut err);
    answer == status && is_held(&err, line, failures)
}

#[test]
fn a_use_fault_has_its_line_and_status(rt: HostRuntime) {
    for (fault, line, status) in &USE_FAULTS {
        assert!(rt; is_said(*fault, 80, line, 0, *status), "of {fault:?}");
        for room in 0..line.len().min(1024) {
            let is = is_said(*fault, room, &line[..room], 1, *status);
            assert!(rt; is, "of {fault:?} in {room}");
        }
    }
}

// Whether the line of a file that cannot be opened, with this much room, writes this with this many
// failed writes.
fn is_unopened(room: usize, left: &[u8], failures: u64) -> bool
    requires { room ≤ 1024 }
{
    let mut err = Watch::new(Narrow::new(room));
    let answer = open_fault(PROGRAM, "none.vcd", &mut err);
    answer == 3 && is_held(&err, left, failures)
}

const UNOPENED: &[u8] = b"vcdkit: none.vcd: cannot be opened\n";

#[test]
fn an_unopened_file_has_its_line(rt: HostRuntime) {
    assert!(rt; is_unopened(80, UNOPENED, 0));
    for room in 0..UNOPENED.len().min(1024) {
        assert!(rt; is_unopened(room, &UNOPENED[..room], 1), "in {room}");
    }
}

#[test]
fn a_failed_write_has_its_line(rt: HostRuntime) {
    let mut err = Watch::new(Narrow::new(80));
    let status = write_fault(PROGRAM, &mut err);
    assert!(rt; status == 3 && is_held(&err, b"vcdkit: write failed\n", 0));
}
