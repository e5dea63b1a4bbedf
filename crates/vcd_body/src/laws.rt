//! The laws about bodies and values, which use only the definitions.
pub use vcd_model::laws::{body_reading, short_is_shortest};
