//! A whole run: from options, a step library, hooks and sources to a status and a written report, or an explanation or the
//! findings in its place. Also the command-line arguments.
#![tactic(auto)]

mod arguments;
mod explain_run;
mod feature_loop;
mod laws;
mod option_table;
mod report_run;
mod suite;
mod writing;

pub use arguments::{Mode, Words, WordsFault, read_words};
pub use gk_io::{Counted, SourceFault, read_source};
pub use gk_request::{Options, RunFault, Source};
pub use laws::{judged_rows_are_in_file_order, scenarios_come_to_the_same_in_each_run};
pub use suite::{run_suite, write_suite};
