// Devices of which every other call is interrupted.
use super::runs::{DUMP, REPORT};
use std::alloc::{AllocError, Global};
use std::io;
use std::io::{ErrorKind, Read, Write};
use vcd_text::Watch;
use vcd_text::doubles::{Narrow, Pieces};
use vcdkit::{Again, Job, Want, run};

// Its first call is interrupted, and each second one after it.
#[derive(Drop)]
struct Stutter<D> {
    device: D,
    ready: bool,
}

impl<D> Stutter<D> {
    fn new(device: D) -> Self {
        Stutter {
            device,
            ready: true,
        }
    }

    fn is_interrupted(&mut self) -> bool {
        self.ready = !self.ready;
        !self.ready
    }
}

impl<D: Read> Read for Stutter<D> {
    fn read(&mut self, into: &mut [u8]) -> io::Result<usize> {
        if self.is_interrupted() {
            return Err(io::Error::from(ErrorKind::Interrupted));
        }
        self.device.read(into)
    }
}

impl<D: Write> Write for Stutter<D> {
    fn write(&mut self, from: &[u8]) -> io::Result<usize> {
        if self.is_interrupted() {
            return Err(io::Error::from(ErrorKind::Interrupted));
        }
        self.device.write(from)
    }

    fn flush(&mut self) -> io::Result<()> {
        if self.is_interrupted() {
            return Err(io::Error::from(ErrorKind::Interrupted));
        }
        self.device.flush()
    }
}

// A device of which every other call is interrupted, each of which is made again.
fn again<D>(device: D) -> Again<Stutter<D>> {
    Again::new(Stutter::new(device))
}

// Whether a check and a flush whose calls are interrupted succeed.
fn is_checked(alloc: Global) -> Result<bool, AllocError> {
    let names = [String::from_str(alloc, "a.vcd")?];
    let job = Job {
        task: Want::Check,
        limit: 64,
        chunk: 16,
    };
    let mut readers = [Watch::new(again(Pieces::new(DUMP, 7)))];
    let mut out = Watch::new(again(Narrow::new(1024)));
    let mut err = Watch::new(again(Narrow::new(80)));
    let status = run(
        alloc,
        job,
        names.as_slice(),
        readers.as_mut_slice(),
        &mut out,
        &mut err,
    );
    let is_flushed = out.device.flush().is_ok();
    let report = out.device.device.device.held();
    let message = err.device.device.device.held();
    Ok(status == 0 && is_flushed && report == REPORT && message.is_empty())
}

#[test]
fn interrupted_calls_are_made_again(rt: HostRuntime) {
    assert_eq!(rt; is_checked(rt.alloc()), Ok(true));
}
