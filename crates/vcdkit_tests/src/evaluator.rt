// Inputs that are cut off after each byte: what `run` ends with is compared with what
// `vcd_evaluator` says, and what was written is read again.
mod again;
mod compare;
mod cut_off;
mod inputs;
mod product;
