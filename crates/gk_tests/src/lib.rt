//! Tests of the public functions of the libraries below `gk_cli`, with ample memory. The results were worked out by hand.
//! `tests/calls.py` shows which file calls which function. The stored runs of `tests/` compare what the built program
//! shows. The tests are in a separate crate because a crate with tests is proved twice. Those of `gk_cli` are in
//! `gk_cli_tests`.
#![tactic(auto)]

#[cfg(test)]
mod act_tests;
#[cfg(test)]
mod checks;
#[cfg(test)]
mod entry_tests;
#[cfg(test)]
mod explain_tests;
#[cfg(test)]
mod filling_tests;
#[cfg(test)]
mod gherkin_tests;
#[cfg(test)]
mod library_tests;
#[cfg(test)]
mod lint_tests;
#[cfg(test)]
mod report_tests;
#[cfg(test)]
mod run_tests;
#[cfg(test)]
mod select_tests;
#[cfg(test)]
mod steps_tests;
#[cfg(test)]
mod suite_tests;
#[cfg(test)]
mod table_tests;
#[cfg(test)]
mod text_tests;
#[cfg(test)]
mod world_tests;
