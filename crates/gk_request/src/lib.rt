//! What a run is asked for: options, a step library, hooks and feature files. Reading them, and the faults
//! of those that don't read.
#![tactic(auto)]

mod all_faults;
mod fault_line;
mod inputs;
mod request;
mod run_fault;
mod source;

pub use all_faults::{all_faults_are_found, faults_after};
pub use fault_line::{NamedFault, file_at_fault, line_at_fault, name_at_fault};
pub use inputs::{
    ReadBefore, ReadInputs, first_bad_tags, inputs_are_unique, read_before, read_feature_at,
    read_inputs,
};
pub use request::{Options, SuiteFiles, bytes_of, name_of};
pub use run_fault::RunFault;
pub use source::Source;
