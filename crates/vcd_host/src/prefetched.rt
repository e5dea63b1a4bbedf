//! A reader whose first bytes are read before they are asked for.
ghost use Rattle.std.specs.Prelude.{◌≡◌, ◌≤◌, IfSome, length, take, vec_len};
ghost use Rattle.std.specs.Io.KnownBytes.{Consumes, Keeps};

use std::alloc::Global;
use std::io;
use std::io::{ErrorKind, Read};

/// What a reader returned after the bytes that were prefetched.
#[derive(Clone, Copy)]
enum Seen {
    /// Nothing yet.
    Unknown,
    /// That a read failed.
    Failure(ErrorKind),
    /// Its end.
    End,
}

/// A reader whose first bytes are read before they are asked for. If its end comes right after
/// them, it is not called again, so it is known how many bytes there are.
#[derive(Drop)]
pub struct Prefetched<R> {
    reader: R,
    bytes: Vec<u8>,
    /// The offset of the first byte that no read has returned yet.
    next: usize,
    seen: Seen,
    ghost within: { next ≤ vec_len bytes },
}

impl<R: Read> Prefetched<R> {
    ghost use Rattle.vcd_host.specs.Prefetched.{bytes_left, left_after};

    /// Reads to the front of `into` until it is full, the reader is at its end, or a read fails.
    /// Returns how many bytes it read, and what the reader returned after them.
    fn read_front(reader: &mut R, into: &mut [u8]) -> (usize, Seen)
        ensures count { result.0 ≤ length into.new }
        ensures bytes { Consumes (R.remaining reader.old)
            (left_after result.1 (R.remaining reader.new)) (take result.0 into.new) }
    {
        let mut count = 0;
        while count < into.len() {
            match reader.read(&mut into[count..]) {
                Ok(0) => return (count, Seen::End),
                Ok(n) => count += n,
                Err(error) => return (count, Seen::Failure(error.kind())),
            }
        }
        (count, Seen::Unknown)
    }

    /// Returns this reader with its first bytes prefetched: `most`, or fewer if its end or a failed
    /// read comes before, or if there is no memory for them.
    pub fn new(alloc: Global, mut reader: R, most: usize) -> Prefetched<R>
        ensures { Keeps (R.remaining reader) (bytes_left R.remaining result) }
    {
        let Ok(mut bytes) = vec![in alloc; 0u8; most] else {
            return Prefetched {
                reader,
                bytes: Vec::new(alloc),
                next: 0,
                seen: Seen::Unknown,
            };
        };
        let (count, seen) = Self::read_front(&mut reader, &mut bytes);
        bytes.truncate(count);
        Prefetched {
            reader,
            bytes,
            next: 0,
            seen,
        }
    }

    /// Returns how many bytes reads will return, if the end of the reader was seen. Otherwise
    /// `None`.
    pub fn len(&self) -> Option<usize>
        ensures { IfSome (bytes_left R.remaining self.now)
            (λ bytes. IfSome result (λ len. length bytes ≤ len)) }
    {
        match self.seen {
            Seen::End => Some(self.bytes.len() - self.next),
            Seen::Unknown => None,
            Seen::Failure(_) => None,
        }
    }
}

// What was prefetched comes first, and then what the reader has.
impl<R: Read> Read for Prefetched<R> {
    ghost use Rattle.vcd_host.specs.Prefetched.{bytes_left};

    ghost remaining = { λ prefetched. bytes_left R.remaining prefetched };

    /// Reads prefetched bytes to the front of `into`, or, once there are none left, bytes of the
    /// reader, and returns how many. Fails if a read of the reader fails or has failed.
    fn read(&mut self, into: &mut [u8]) -> io::Result<usize> {
        if self.next < self.bytes.len() {
            let mut rest = &self.bytes[self.next..];
            let count = rest.read(into)?;
            self.next += count;
            return Ok(count);
        }
        match self.seen {
            Seen::Unknown => self.reader.read(into),
            Seen::Failure(kind) => {
                self.seen = Seen::Unknown;
                Err(io::Error::from(kind))
            }
            Seen::End => Ok(0),
        }
    }
}
