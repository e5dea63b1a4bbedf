//! What is kept of a code.
ghost use Rattle.std.specs.Prelude.{◌≡◌, ◌≢◌, ◌≤◌, ◌⊎◌, ◌==◌, Bool, cond, length, true, false};
ghost use Rattle.vcd_body.specs.Stored.{IsUncounted, IsUnset, held_digit, holding_of, len_of, tag_of, one_digit, share_from, some_by, state_in, used};

/// How the value of a code is held. Each digit has a state of its own, so that a value of one digit
/// is only in the slot.
// In the order of the numbers that encode them, so that none has to be looked up.
#[derive(Clone, Copy, PartialEq, Eq)]
pub(crate) enum State {
    /// The code has no value.
    Unset,
    /// By the digit 1.
    One,
    /// By the digit 0.
    Zero,
    /// By the digit x.
    Unknown,
    /// By the digit z.
    High,
    /// By several digits, packed four to a byte, in its share of the values.
    Packed,
    /// By the text of a real number, in its share of the values.
    Real,
    /// By up to 32 binary digits, as their number and how many they are, only in the slot.
    Bits,
}

/// The number of `State::Bits` with no digit. The number of a state with n digits is n more.
pub(crate) const BITS: u8 = 7;

/// The number of `State::High`: up to it a state has no value or one digit.
pub(crate) const HIGH: u8 = 4;

/// What each change of a code looks at: its value if it is short, and how it is held. It has 8
/// bytes, so that many slots fit into the cache.
// With one record of 48 bytes instead, `cut` of 27,505 codes before its window takes 16 % more
// time.
#[derive(Clone, Copy, PartialEq, Eq, Debug)]
pub struct Slot {
    // The number of the binary digits; otherwise the lowest 32 bits of how many digits, or bytes of
    // a text, are held in the share.
    pub(crate) number: u32,
    // The number of the state that holds the value; from `BITS` on it is more by as many as the
    // binary digits are.
    pub(crate) tag: u8,
    // How many steps came since the share had the counters: falls, steps that are neither, and
    // rises. So most steps add to one of these bytes.
    pub(crate) steps: [u8; 3],
}

/// What else is kept of a code: its share of the bytes of values, its counters without the steps
/// that its slot has counted since, and whether it is chosen.
#[derive(Clone, Copy, PartialEq, Eq, Debug)]
pub struct Share {
    // Where the share begins. It ends where the next one begins.
    pub(crate) start: usize,
    // How many digits, or bytes of a text, are held in it, above the lowest 32 bits.
    pub(crate) upper: u32,
    // The counters without the steps that the slot has counted.
    pub(crate) counts: [u64; 3],
    pub(crate) chosen: bool,
}

/// How a value is held, by its slot and its share.
#[derive(Clone, Copy, PartialEq, Eq)]
pub(crate) struct Holding {
    pub(crate) state: State,
    /// The lowest 32 bits of how many digits, or bytes of a text, are held in the share; or the
    /// number of the binary digits.
    pub(crate) lower: u32,
    /// The bits above the lowest 32 of that length; or how many binary digits there are.
    pub(crate) upper: u32,
}

/// A value as it is held, with the bytes of its share that are in use.
#[derive(Clone, Copy)]
pub(crate) struct HeldValue<'a> {
    pub(crate) holding: Holding,
    pub(crate) bytes: &'a [u8],
    ghost fits: { used holding ≡ length bytes.now },
    ghost some: { 1 ≤ some_by holding.state (len_of holding) },
}

/// The unit of the upper part of a length: 2^32.
pub(crate) const UPPER: usize = 4_294_967_296;

impl Holding {
    /// Returns how many digits, or bytes of a text, are held in the share. Only if the state is
    /// `State::Packed` or `State::Real` does the result have a meaning.
    #[inline(always)]
    pub(crate) fn len(self) -> usize
        ensures { result ≡ len_of self }
    {
        self.upper as usize * UPPER + self.lower as usize
    }
}

/// What the value of a code is.
#[derive(Clone, Copy, PartialEq, Eq, Debug)]
pub enum Shown {
    /// The code has no value.
    Unset,
    /// Digits, as many as the code has bits.
    Bits,
    /// The text of a real number.
    Real,
}

impl Slot {
    /// Returns the slot of a code that has no value, and of which no change was counted.
    pub fn new() -> Slot
        ensures { IsUnset result }
    {
        Slot {
            number: 0,
            tag: tag_of(State::Unset),
            steps: [0; 3],
        }
    }
}

impl Share {
    /// Returns the share of a code of which no change was counted, and which is not chosen. It has
    /// no bytes of the values yet.
    pub fn new() -> Share
        ensures { IsUncounted result }
    {
        Share::at(0)
    }

    /// Returns a share that begins at offset `start` in the bytes of values, with no value, no
    /// counts, and not chosen.
    pub(crate) fn at(start: usize) -> Share
        ensures { result ≡ share_from start }
    {
        Share {
            start,
            upper: 0,
            counts: [0; 3],
            chosen: false,
        }
    }
}

/// Returns the `tag` of a slot whose value is held in this state; for `State::Bits` the one with no
/// digits, to which the number of digits is added.
#[inline(always)]
pub(crate) fn tag_of(state: State) -> u8
    ensures { result ≡ tag_of state }
{
    match state {
        State::Unset => 0,
        State::One => 1,
        State::Zero => 2,
        State::Unknown => 3,
        State::High => 4,
        State::Packed => 5,
        State::Real => 6,
        State::Bits => 7,
    }
}

/// Returns whether a digit is `0` or `1`.
#[inline(always)]
pub(crate) fn is_zero_or_one(digit: u8) -> bool
    ensures yes { result ≡ true → (digit ≡ 48) ⊎ (digit ≡ 49) }
    ensures no { result ≡ false → (digit ≢ 48) × (digit ≢ 49) }
{
    digit.wrapping_sub(b'0') < 2
}

/// Returns the `tag` of a slot whose value is the other digit: `1` if the digit is `0`, and `0` if
/// it is `1`. It takes no branch.
#[inline(always)]
pub(crate) fn tag_of_flipped(digit: u8) -> u8
    requires { (digit ≡ 48) ⊎ (digit ≡ 49) }
    ensures { result ≡ tag_of (cond (digit == 49) State.Zero State.One) }
{
    digit - b'0' + 1
}

/// Returns the `tag` of a slot with the value `0` if `tag` is that of one with `1`, and the other
/// way round. For any other tag the result has no meaning.
#[inline(always)]
pub(crate) fn flipped(tag: u8) -> u8
    ensures { (one : Bool) → tag ≡ tag_of (cond one State.Zero State.One)
        → result ≡ tag_of (cond one State.One State.Zero) }
{
    // They are 1 and 2, which differ in two bits.
    tag ^ 3
}

/// Returns the state that a slot with this tag is in: `State::Bits` for each tag from 7 on.
#[inline(always)]
pub(crate) fn state_in(tag: u8) -> State
    ensures { result ≡ state_in tag }
{
    match tag {
        0 => State::Unset,
        1 => State::One,
        2 => State::Zero,
        3 => State::Unknown,
        4 => State::High,
        5 => State::Packed,
        6 => State::Real,
        _ => State::Bits,
    }
}

/// Returns how the value of a code with this slot and this share is held.
#[inline(always)]
pub(crate) fn holding_of(slot: Slot, share: Share) -> Holding
    ensures { result ≡ holding_of slot share }
{
    let upper = if slot.tag >= BITS {
        u32::from(slot.tag - BITS)
    } else {
        share.upper
    };
    Holding {
        state: state_in(slot.tag),
        lower: slot.number,
        upper,
    }
}

// For each value of a byte's lowest four bits, the number of the state that holds the digit with
// these bits.
const NUMBERS: [u8; 16] = [2, 1, 4, 4, 4, 4, 4, 4, 3, 4, 4, 4, 4, 4, 4, 4];

/// Returns the `tag` of a slot whose value is this one digit.
#[inline(always)]
pub(crate) fn tag_of_digit(digit: u8) -> u8
    ensures { one_digit (state_in result) ≡ Some (held_digit digit) }
{
    NUMBERS[usize::from(digit % 16)]
}

/// Returns the digit that a state holds, in lower case. `None` for the states that do not hold
/// exactly one: `Unset`, `Packed`, `Bits` and `Real`.
#[inline(always)]
pub(crate) fn digit_of_state(state: State) -> Option<u8>
    ensures { result ≡ one_digit state }
{
    match state {
        State::Zero => Some(b'0'),
        State::One => Some(b'1'),
        State::Unknown => Some(b'x'),
        State::High => Some(b'z'),
        State::Unset | State::Packed | State::Bits | State::Real => None,
    }
}
