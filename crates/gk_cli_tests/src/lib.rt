//! Tests of the public functions of `gk_request`, `gk_findings` and `gk_cli`, with ample memory, and over readers and
//! writers that fail. They are separate from `gk_tests`, so that the tests there are proved while these crates are.
#![tactic(auto)]

#[cfg(test)]
mod arguments_tests;
#[cfg(test)]
mod counted_tests;
#[cfg(test)]
mod request_tests;
#[cfg(test)]
mod run_suite_tests;
#[cfg(test)]
mod source_tests;
#[cfg(test)]
mod whole_suite_tests;
