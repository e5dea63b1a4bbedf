// In which blocks a buffered sink passes on what it was given.
use std::alloc::{AllocError, Global};
use std::io;
use std::io::Write;
use vcd_host::{Buffered, Output};
use vcd_text::{Few, Sink, put, put_few, put_parts};

// Notes how many bytes each write brings. It takes at most 3,000 of them if it is `narrow`, and
// fails at one write, given by its number.
#[derive(Drop)]
struct Noted {
    sizes: Vec<usize>,
    narrow: bool,
    failing: usize,
}

impl Noted {
    fn new(alloc: Global, narrow: bool, failing: usize) -> Noted {
        Noted {
            sizes: Vec::new(alloc),
            narrow,
            failing,
        }
    }
}

impl Write for Noted {
    fn write(&mut self, buf: &[u8]) -> io::Result<usize> {
        let number = self.sizes.len();
        self.sizes.push(buf.len())?;
        if number == self.failing {
            return Err(io::Error::from(io::ErrorKind::StorageFull));
        }
        if self.narrow {
            return Ok(buf.len().min(3_000));
        }
        Ok(buf.len())
    }

    fn flush(&mut self) -> io::Result<()> {
        Ok(())
    }
}

// What a buffered sink is to do.
#[derive(Clone, Copy)]
enum Order {
    // To take this many bytes, at most 9,000.
    Put(usize),
    // To take the first five of eight bytes.
    PutFew,
    // To take one byte, 40 and five.
    PutParts,
    Flush,
    PassOn,
}

// Has a sink follow an order. It asks nothing of the sink, so that no test has to count its
// failures.
fn follow<W: Output>(out: &mut W, order: Order) {
    if out.failures() > 2 {
        return;
    }
    let bytes = [b'x'; 9_000];
    let few = Few {
        bytes: [b'x'; 8],
        len: 5,
    };
    let _ = match order {
        Order::Put(len) => put(out, &bytes[..len.min(9_000)]),
        Order::PutFew => put_few(out, few),
        Order::PutParts => put_parts(out, b'x', &bytes, 40, few),
        Order::Flush => out.flush(),
        Order::PassOn => out.pass_on(),
    };
}

// The blocks that these orders lead to, until the sink was dropped, and how many of its calls had
// failed before.
fn blocks_of(
    alloc: Global,
    narrow: bool,
    failing: usize,
    orders: &[Order],
) -> Result<(Vec<usize>, u64), AllocError> {
    let mut device = Noted::new(alloc, narrow, failing);
    let failures = {
        let mut out = Buffered::new(alloc, &mut device)?;
        for order in orders {
            follow(&mut out, *order);
        }
        out.failures()
    };
    Ok((device.sizes, failures))
}

// No write has this number.
const NONE: usize = usize::MAX;

// Whether the device is narrow, which of its writes fails, what the sink is to do, the blocks, and
// how many of its calls fail.
type Row = (bool, usize, &'static [Order], &'static [usize], u64);

static ROWS: [Row; 13] = [
    // What is full is passed on with the next byte, and what has no room in the whole buffer by
    // itself.
    (
        false,
        NONE,
        &[
            Order::Put(8_190),
            Order::Put(1),
            Order::Put(1),
            Order::Put(1),
        ],
        &[8_192, 1],
        0,
    ),
    (
        false,
        NONE,
        &[Order::Put(5_000), Order::Put(5_000), Order::Put(3)],
        &[5_000, 5_003],
        0,
    ),
    (false, NONE, &[Order::Put(8_192)], &[8_192], 0),
    (
        false,
        NONE,
        &[Order::Put(3), Order::Put(8_192), Order::Put(4)],
        &[3, 8_192, 4],
        0,
    ),
    (
        false,
        NONE,
        &[Order::Put(8_000), Order::Put(192), Order::Put(9_000)],
        &[8_192, 9_000],
        0,
    ),
    (
        false,
        NONE,
        &[Order::Put(8_128), Order::Put(64), Order::Put(1)],
        &[8_192, 1],
        0,
    ),
    (
        false,
        NONE,
        &[Order::Put(8_129), Order::Put(63), Order::Put(64)],
        &[8_192, 64],
        0,
    ),
    // The buffer has room for the second text as a whole, but not for the parts of the third one.
    (
        false,
        NONE,
        &[Order::Put(8_180), Order::PutFew, Order::PutParts],
        &[8_186, 45],
        0,
    ),
    // The only write fails. What is left is not written when the sink is dropped.
    (false, 0, &[Order::Put(10), Order::Flush], &[10], 0),
    // The second write fails. What the failed flush left is not flushed again.
    (
        true,
        1,
        &[Order::Put(5_000), Order::Flush, Order::Flush],
        &[5_000, 2_000],
        0,
    ),
    // The first write fails, and with it the second put, and the third one. The device gets no
    // write for that one, nor for the flush, nor when the sink is dropped.
    (
        false,
        0,
        &[
            Order::Put(8_000),
            Order::Put(500),
            Order::Put(400),
            Order::Flush,
        ],
        &[8_000],
        2,
    ),
    // The same for a write that does not come from the buffer.
    (
        false,
        0,
        &[Order::Put(9_000), Order::Put(10), Order::Flush],
        &[9_000],
        1,
    ),
    // The second write fails. What is kept back is passed on twice before, but not after.
    (
        false,
        1,
        &[
            Order::Put(10),
            Order::PassOn,
            Order::Put(5),
            Order::PassOn,
            Order::PassOn,
        ],
        &[10, 5],
        2,
    ),
];

#[test]
fn bytes_are_passed_on_in_blocks(rt: HostRuntime) {
    for (narrow, failing, orders, blocks, failures) in &ROWS {
        let left = blocks_of(rt.alloc(), *narrow, *failing, orders).map(|(sizes, failures)| (
            sizes.as_slice() == *blocks,
            failures,
        ));
        assert_eq!(rt; left, Ok((true, *failures)), "of {blocks:?}");
    }
}
