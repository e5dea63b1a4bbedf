//! The laws about the definitions of `vcd_model`: what holds of every dump, by the definitions
//! only.
//!
//! What the commands write keeps values. It is a dump, and other commands read it as they read the
//! input. `check` decides for every other command whether a dump is good. What settles a run is
//! final. What is due with first tokens is the longest text with which the output begins. The few
//! laws that proofs of code use are in `vcd_model::laws`.
//!
//! The program is not built from this crate, so a change of a law makes no other proof run again.
//!
//! # The modules
//!
//! - `laws`: each function has a law as its contract, so that the prover checks the law
//!
//! In `specs/` the laws are sorted by subject, in the order of `specs/Lib.antt`. The files
//! `proofs/*Rows.antt` have worked rows: inputs with their outputs, computed by the kernel. The
//! other files of `proofs/` have the proofs of the laws.
#![tactic(auto)]

pub mod laws;
