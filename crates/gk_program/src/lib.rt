//! The program, over a system that files are read from and a writer for each of its outputs. It reads the arguments and
//! the files, runs the scenarios, and writes the report or an explanation. Or it runs nothing, and writes what it finds
//! in the files.
#![tactic(auto)]

mod asked;
mod ended;
mod fault;
mod files;
mod program;
mod world_files;

pub use asked::{ArgumentsFault, files_asked};
pub use ended::ProgramEnd;
pub use fault::FaultPlace;
pub use files::System;
pub use program::run;
