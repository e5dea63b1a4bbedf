//! The body of a dump, item by item.
//!
//! `next_item` reads the next item from a feed that is after a header: a timestamp, the begin or
//! end of a section, a value change, or the end of the body (`Finish`). `change_text` is the text
//! of the change that was read last, and `put_change` writes a change as its line.
//!
//! Most items are timestamps and changes that lie completely in the chunk. `walk_ahead` has a
//! `Visit` handle these one after the other, skips the comments between them, and leaves the feed
//! where it is; `pass_items` moves the feed past all of them. The `Visit` says what is done with
//! each, which timestamps are left to the caller, and when the walk is over. `pass_on_before_read`
//! is for a caller that reads on: before a read may wait, a sink writes what it keeps back to its
//! device.
//!
//! The bytes of such a change are often the line that `put_change` would write, except its last
//! byte and digits that the line does not need (`left_out` counts these). Then they may be copied
//! from the chunk, with a line feed after them. Lines that end with a line feed in the chunk may be
//! copied together.
//!
//! A `Table` keeps of each code its current value, three counters, and whether it is chosen. A run
//! ends with a `Done` or a `Stop`; `put_time` writes the line of a time. None of them takes memory.
//!
//! # The relation
//!
//! `GaveItems codes input front items feed regs`: after the tokens of `front`, those of the header,
//! the feed has given whole phrases with these items, and the registers hold what is known of them.
//! `next_item` takes it to one more item (`GivesItem`). At the end these are all items of the body,
//! and it has no fault; otherwise it has this fault after exactly these items (`Fails`). Whatever
//! the input is, `Advances` of `vcd_text` says what is left of the feed, and a change is of one of
//! the view's codes and has a text that this code may have (`IsGoodChange`).
//!
//! `GaveAhead codes limit lines bytes n before items`: the first n bytes ahead are phrases with
//! these items, which follow those with the items before. An item takes it to one more item
//! (`TakesItem`); `pass_items` takes `GaveItems` to all of them, and at the last of them to
//! `GaveLast`, which says how much was read.
//!
//! `Walks takes stands over view begin end ended` is what `walk_ahead` leaves: a trail of items
//! from where it began (`Trail`), at each of which the visitor did what its `takes` says, with only
//! comments between them, and how it ended. Callers turn the trail into a relation of their own.
//!
//! `IsSpelled view scanned` says that the bytes of an item that was taken ahead, from its first one
//! up to its end, spell it. `left_out` asks for it, and `put_renamed_ahead` for what it says of a
//! change.
//!
//! `kept_at t code` is what is kept of the code at an index. A call of a table changes what is kept
//! of the code at the index that it names, and nothing else (`ChangesCode`).
//!
//! # The modules
//!
//! Items are read from the feed, or taken ahead of it in its chunk:
//!
//! - `read`: `next_item`, `change_text`; `phrases`, `tokens`: phrases by what they begin with, and
//!   the next token
//! - `walk`: `walk_ahead`, `Visit`: the loop over the items ahead
//! - `ahead`: an item ahead, by what it begins with; `ScannedItem`, `item_comes`,
//!   `pass_on_before_read`, `pass_items`
//! - `words`: what a token is, by its first byte, and which bytes are digits
//! - `item`, `fault`: `Item`, `Form`, `Section`, `Regs`; `BodyFault`
//!
//! `values` has the table, which keeps values; `current`: `set_item` and `set_shortest`, the values
//! of codes with one more item.
//!
//! Lines are written:
//!
//! - `put_line`: `put_change`, from form and text, under an `Id` (`id`); `digits`: the digits of a
//!   change, or those that are held, and how they are extended; `change`: which of them are needed,
//!   and a code's own bytes at the end of the line; `renamed`: a new code there
//! - `lines`: `left_out`: how the bytes of a change are its line; `time_line`: `put_time`
//!
//! A run ends:
//!
//! - `answer`: `Done`, `More`, `Stop`: how a run over a body or several ends, and whether it goes
//!   on
//!
//! `laws`: each function has a law over bodies and values as its contract.
//!
//! In `specs/` callers read `Items`, `Reads`, `Given`, `Ahead`, `Taken`, `Walk`, `Spelled` and
//! `Fault`; of a run's end `Answer`, and of what was written `Device` and `Id`; for the table
//! `Contents`, `Kept` and `Current`.
//!
//! # Limits
//!
//! A time is below 2^64, a vector has at most as many digits as its code has bits (an event any
//! number), the text of a real number 1 to 64 bytes.
//!
//! Not promised: anything of a body after its first fault. Do not use the feed or the registers
//! again then.
#![tactic(auto)]

mod ahead;
mod answer;
mod change;
mod current;
mod digits;
mod fault;
mod id;
mod item;
pub mod laws;
mod lines;
mod phrases;
mod put_line;
mod read;
mod renamed;
mod time_line;
mod tokens;
mod values;
mod walk;
mod words;

pub use ahead::{ScannedItem, item_comes, pass_items, pass_on_before_read};
pub use answer::{Done, More, Stop};
pub use current::{set_item, set_shortest};
pub use fault::BodyFault;
pub use id::Id;
pub use item::{Form, Item, Regs, Section};
pub use lines::{is_timestamp_line, left_out};
pub use put_line::put_change;
pub use read::{change_text, next_item};
pub use renamed::{only_digit, put_code_line, put_renamed, put_renamed_ahead};
pub use time_line::{put_time, put_time_unless};
pub use values::bits::Bits;
pub use values::slot::{Share, Shown, Slot};
pub use values::step::Step;
pub use values::table::Table;
pub use values::table_text::{put_full, put_short};
pub use values::value::Value;
pub use walk::{Visit, WalkEnd, Walked, walk_ahead};
