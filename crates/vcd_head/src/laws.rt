//! The laws about headers and codes, which use only the definitions.
pub use vcd_model::laws::{codes_differ, header_reading, ticks_are_rounded};
