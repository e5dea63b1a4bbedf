// What a body is made of.
use crate::fault::BodyFault;

/// What opens a section.
#[derive(Clone, Copy, PartialEq, Eq, Debug)]
pub enum Section {
    /// `$dumpvars`.
    Vars,
    /// `$dumpoff`.
    Off,
    /// `$dumpon`.
    On,
    /// `$dumpall`.
    All,
}

/// How a value change is written.
#[derive(Clone, Copy, PartialEq, Eq, Debug)]
pub enum Form {
    /// A digit, and the code right after it.
    Scalar,
    /// `b` and digits, then the code.
    Vector,
    /// `r` and a number, then the code.
    RealText,
}

/// An item of a body, or its end.
#[derive(Clone, Copy, PartialEq, Eq, Debug)]
pub enum Item {
    /// A timestamp.
    Time(u64),
    /// A section begins.
    Begin(Section),
    /// The section ends.
    End,
    /// A value change of the code at this index among the header's codes. `change_text` returns its
    /// text.
    Change { code: usize, form: Form },
    /// The body has ended, outside a section.
    Finish,
}

/// What is known after the items read so far.
#[derive(Clone, Copy, PartialEq, Eq, Debug)]
pub struct Regs {
    /// The last timestamp, which is the greatest; 0 if there was none.
    pub time: u64,
    /// Whether there was a timestamp.
    pub marked: bool,
    /// The section that is open.
    pub section: Option<Section>,
}

impl Regs {
    ghost use Rattle.std.specs.Prelude.{◌≡◌, [], false, None, MatchResult};
    ghost use Rattle.vcd_body.specs.Items.{AreRegsAfter, AreRegsWith, AcceptsTimestamp, RefusesTimestamp};

    /// Returns the registers before the first item of a body: no timestamp came, and no section is
    /// open.
    pub fn new() -> Regs
        ensures known { AreRegsAfter [] result }
        ensures value { result ≡ record { time = 0; marked = false; section = None } }
    {
        Regs {
            time: 0,
            marked: false,
            section: None,
        }
    }

    /// Sets the last time to that of a timestamp. Fails with `TimeInSection` if a section is open,
    /// and with `TimeBack` if the time is less than the last one; then nothing changes.
    // Not inlined: with it inlined, `pick` of all of 27,505 codes takes 6 % more, although `edges`
    // of most dumps takes 2 to 7 % less.
    #[inline(never)]
    pub(crate) fn accept_timestamp(&mut self, time: u64) -> Result<(), BodyFault>
        ensures may { MatchResult result (λ _. AcceptsTimestamp self.old time) (RefusesTimestamp self.old time) }
        ensures regs { AreRegsWith (λ _. Item.Time time) self.old self.new result }
    {
        self.accept_timestamp_here(time)
    }

    /// Sets the last time to that of a timestamp: by a call of `accept_timestamp` if `call` is
    /// true, otherwise by the same code inlined. Fails with `TimeInSection` if a section is open,
    /// and with `TimeBack` if the time is less than the last one; then nothing changes.
    #[inline(always)]
    pub(crate) fn accept_timestamp_by(&mut self, time: u64, call: bool) -> Result<(), BodyFault>
        ensures may { MatchResult result (λ _. AcceptsTimestamp self.old time) (RefusesTimestamp self.old time) }
        ensures regs { AreRegsWith (λ _. Item.Time time) self.old self.new result }
    {
        if call {
            self.accept_timestamp(time)
        } else {
            self.accept_timestamp_here(time)
        }
    }

    /// Sets the last time to that of a timestamp; it is always inlined. Fails with `TimeInSection`
    /// if a section is open, and with `TimeBack` if the time is less than the last one; then
    /// nothing changes.
    #[inline(always)]
    fn accept_timestamp_here(&mut self, time: u64) -> Result<(), BodyFault>
        ensures may { MatchResult result (λ _. AcceptsTimestamp self.old time) (RefusesTimestamp self.old time) }
        ensures regs { AreRegsWith (λ _. Item.Time time) self.old self.new result }
    {
        if self.section.is_some() {
            return Err(BodyFault::TimeInSection);
        }
        if time < self.time {
            return Err(BodyFault::TimeBack);
        }
        self.time = time;
        self.marked = true;
        Ok(())
    }
}
