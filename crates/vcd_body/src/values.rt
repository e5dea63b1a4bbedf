//! The current values of codes, and what is kept beside them.
//!
//! - `table`: `Table`; `value`: `Value`, the value of a change
//! - `slot`: `Slot`, `Share`, `Shown`; `store`: how slots and shares are set; `counters`: the
//!   counters of a code, which are in parts in its slot and its share
//! - `bits`: `Bits`, up to 32 binary digits as a number, and how a slot holds them; `packed`:
//!   digits in a share, four to a byte
//! - `held`: the digits of a held value; `compare`: whether that of a change differs; `several`:
//!   several digits that are set over several others; `step`: `Step`, what became of a value;
//!   `same`: whether two codes have the same value
//! - `table_text`, `held_text`: `put_short`, `put_full`: the line of a held value

pub(crate) mod bits;
pub(crate) mod compare;
pub(crate) mod counters;
pub(crate) mod held;
pub(crate) mod held_text;
pub(crate) mod packed;
pub(crate) mod same;
pub(crate) mod several;
pub(crate) mod slot;
pub(crate) mod step;
pub(crate) mod store;
pub(crate) mod table;
pub(crate) mod table_text;
pub(crate) mod value;
