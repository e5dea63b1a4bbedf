//! Devices whose interrupted calls are made again.
use std::io;
use std::io::{ErrorKind, Read, Write};

/// A reader or a writer whose interrupted calls are made again.
///
/// Any other result is returned as it is. The contract says which bytes are read and written if
/// those of the device are known: a call that failed, also one that was interrupted, read and wrote
/// none. It does not say which calls are made again.
#[derive(Drop)]
pub struct Again<D> {
    /// The device that is called.
    pub device: D,
}

impl<D> Again<D> {
    ghost use Rattle.std.specs.Prelude.{◌≡◌};

    /// Returns a reader or writer over `device` that makes a call again if the call was
    /// interrupted.
    pub fn new(device: D) -> Again<D>
        ensures { result.device ≡ device }
    {
        Again { device }
    }
}

impl<D: Read> Read for Again<D> {
    ghost remaining = { λ again. D.remaining again.device };

    /// Reads from the device into `into`, again as long as the call was interrupted, and returns
    /// its first other result.
    fn read(&mut self, into: &mut [u8]) -> io::Result<usize> {
        for _ in 0..u64::MAX {
            match self.device.read(into) {
                Err(error) if error.kind() == ErrorKind::Interrupted => {}
                result => return result,
            }
        }
        Err(io::Error::from(ErrorKind::Interrupted))
    }
}

impl<D: Write> Write for Again<D> {
    ghost contents = { λ again. D.contents again.device };

    /// Writes `from` to the device, again as long as the call was interrupted, and returns its
    /// first other result.
    fn write(&mut self, from: &[u8]) -> io::Result<usize> {
        for _ in 0..u64::MAX {
            match self.device.write(from) {
                Err(error) if error.kind() == ErrorKind::Interrupted => {}
                result => return result,
            }
        }
        Err(io::Error::from(ErrorKind::Interrupted))
    }

    /// Flushes the device, again as long as the call was interrupted, and returns its first other
    /// result.
    fn flush(&mut self) -> io::Result<()> {
        for _ in 0..u64::MAX {
            match self.device.flush() {
                Err(error) if error.kind() == ErrorKind::Interrupted => {}
                result => return result,
            }
        }
        Err(io::Error::from(ErrorKind::Interrupted))
    }
}
