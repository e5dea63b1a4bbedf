//! What a program is run in: where its inputs are opened, and where its output goes.
ghost use Rattle.std.specs.Prelude.{◌≡◌, ◌≤◌, ℕ, Bool, List, length, Option, IfOk, IfSome, is_ok, option_map, Result, true};
ghost use Rattle.vcd_host.specs.Names.{Keeps, OpenFault};

use vcd_text::{Sink, Source, Watch, WriteFailed};

/// Why there is no input.
#[derive(Clone, Copy, PartialEq, Eq, Debug)]
pub enum OpenFault {
    /// The input cannot be opened.
    Unopened,
    /// Memory ran out.
    OutOfMemory,
}

/// What opens the inputs.
pub trait Host {
    /// An input that is open.
    type Input: Source + Drop;

    // What a call of `open` with this name may return, and what it leaves of the host. A contract
    // over every host uses it to say which calls were made; there is no other way to say that.
    ghost opens: { Self → Option (List ℕ) → Result Self.Input OpenFault → Self → Type 0 };

    /// Opens the file of this name, or standard input if `name` is `None`, and returns it. Fails if
    /// the input cannot be opened, or if memory runs out.
    fn open(&mut self, name: Option<&str>) -> Result<Self::Input, OpenFault>
        ensures opens { opens self.old (option_map (λ n. n.now) name.entry) result self.new }
        ensures fresh { IfOk result (λ input. Self.Input.failures input ≡ 0) };

    /// Returns a number of bytes that the reads of this input do not exceed. `None` if the host
    /// knows none, as in the provided function.
    fn max_bytes_of(&self, _input: &Self::Input) -> Option<usize>
        ensures { IfSome (Self.Input.rest _input.now)
            (λ text. IfSome result (λ most. length text ≤ most)) }
    {
        None
    }
}

/// A sink that may keep bytes in a buffer until it is flushed.
pub trait Output: Sink {
    // What a call of `flush` leaves of the sink, if the call succeeds and if it fails.
    ghost flushes: { Self → Bool → Self → Type 0 };

    /// Writes what is in the buffer to the device, and flushes the device. Fails if a call of the
    /// device fails; such a failure is not counted by `failures`.
    fn flush(&mut self) -> Result<(), WriteFailed>
        ensures flushes { flushes self.old (is_ok result) self.new }
        ensures held { Keeps (Self.device self.old).held (Self.device self.new).held }
        ensures failures { (Self.device self.new).failures ≡ (Self.device self.old).failures };
}

/// It has no buffer.
impl Output for Watch<Vec<u8>> {
    ghost flushes = { λ old done new. (done ≡ true) × (new ≡ old) };

    /// Does nothing and succeeds: a vector needs no flush.
    fn flush(&mut self) -> Result<(), WriteFailed> {
        Ok(())
    }
}
