//! Which of its four places in the table has which value of a code.
ghost use Rattle.std.specs.Prelude.{◌≡◌, ◌<◌, false};
ghost use Rattle.vcd_strobe.specs.Roles.{changed, enlisted, followed, fresh, is_at, is_due, is_followed, is_idle, needs, settle, settled, triggered};

/// Whether a code has lines.
#[derive(Clone, Copy, PartialEq, Eq, Debug)]
pub enum Wanted {
    /// It has none, and what values it has does not matter.
    Never,
    /// It has none, but its values are kept.
    Silent,
    /// It has none at the next edge, unless it changes.
    Idle,
    /// It may have one at the next edge.
    Listed,
}

/// What is kept of a code besides the values in its places, which count from 0.
#[derive(Clone, Copy, PartialEq, Eq, Debug)]
pub struct Role {
    /// The place of the current value.
    pub now: usize,
    /// The place of the value before the time of the last change.
    pub before: usize,
    /// The place of the value at the last edge.
    pub written: usize,
    /// The time of the last change; `None` if there was none, or only one from the start.
    pub since: Option<u64>,
    /// Of an event: whether it was triggered since the last edge and before `since`.
    pub early: bool,
    /// Whether the code has lines.
    pub wanted: Wanted,
}

/// Returns whether the moment is this time.
#[inline(always)]
pub(crate) fn is_at(moment: Option<u64>, time: u64) -> bool
    ensures { result ≡ is_at moment time }
{
    match moment {
        Some(at) => at == time,
        None => false,
    }
}

impl Role {
    /// Returns the role of a code before the first item, whether it has lines or not.
    pub fn new(lines: bool) -> Role
        ensures { result ≡ fresh lines }
    {
        let wanted = if lines { Wanted::Idle } else { Wanted::Never };
        Role {
            now: 0,
            before: 0,
            written: 0,
            since: None,
            early: false,
            wanted,
        }
    }

    /// Returns whether the values of the code are kept.
    #[inline(always)]
    pub(crate) fn is_followed(self) -> bool
        ensures { result ≡ is_followed self.wanted }
    {
        match self.wanted {
            Wanted::Never => false,
            Wanted::Silent | Wanted::Idle | Wanted::Listed => true,
        }
    }

    /// Returns the role of a code whose values are kept, whether it has lines or not.
    #[inline(always)]
    pub(crate) fn followed(self) -> Role
        ensures { result ≡ followed self }
    {
        let mut role = self;
        if !self.is_followed() {
            role.wanted = Wanted::Silent;
        }
        role
    }

    /// Returns the place of the value just before this time, which is that of the last item.
    #[inline(always)]
    pub(crate) fn settled(self, time: u64) -> usize
        ensures { result ≡ settled self time }
    {
        if is_at(self.since, time) {
            self.before
        } else {
            self.now
        }
    }

    /// Returns whether the place has a value that is still needed.
    #[inline(always)]
    fn needs(self, place: usize) -> bool
        ensures { result ≡ needs self place }
    {
        place == self.now || place == self.before || place == self.written
    }

    /// Returns a place whose value is not needed any more.
    #[inline(always)]
    pub(crate) fn spare(self) -> usize
        ensures within { result < 4 }
        ensures spare { needs self result ≡ false }
    {
        if !self.needs(0) {
            return 0;
        }
        if !self.needs(1) {
            return 1;
        }
        if !self.needs(2) {
            return 2;
        }
        3
    }

    /// Returns whether an event was triggered since the last edge, and before this time, which is
    /// that of the last item.
    #[inline(always)]
    pub(crate) fn is_due(self, time: u64) -> bool
        ensures { result ≡ is_due self time }
    {
        if is_at(self.since, time) {
            self.early
        } else {
            self.wanted == Wanted::Listed
        }
    }

    /// Goes on after a change at this time, whose value is in this place. It may be the first one,
    /// from the start.
    #[inline(always)]
    pub(crate) fn change(&mut self, time: u64, place: usize, from_start: bool)
        ensures { self.new ≡ changed self.old time place from_start }
    {
        if is_at(self.since, time) {
            self.now = place;
            return;
        }
        self.before = self.now;
        self.now = place;
        if !from_start {
            self.since = Some(time);
        }
    }

    /// Notes that the code is listed, if it has lines. Returns whether it was not listed before.
    #[inline(always)]
    pub(crate) fn enlist(&mut self) -> bool
        ensures role { self.new ≡ enlisted self.old }
        ensures idle { result ≡ is_idle self.old.wanted }
    {
        match self.wanted {
            Wanted::Idle => {
                self.wanted = Wanted::Listed;
                true
            }
            Wanted::Never | Wanted::Silent | Wanted::Listed => false,
        }
    }

    /// Goes on after a trigger of an event at this time.
    #[inline(always)]
    pub(crate) fn trigger(&mut self, time: u64)
        ensures { self.new ≡ triggered self.old time }
    {
        self.early = self.is_due(time);
        self.since = Some(time);
    }

    /// Returns the role of a listed code after an edge at this time.
    #[inline(always)]
    pub(crate) fn settle(self, time: u64) -> Role
        ensures { result ≡ settle self time }
    {
        let mut role = self;
        role.written = self.settled(time);
        role.early = false;
        if !is_at(self.since, time) {
            role.wanted = Wanted::Idle;
        }
        role
    }
}
