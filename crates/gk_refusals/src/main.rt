//! The test program in which `tests/test_refused_memory.py` refuses one growth of memory after another. With
//! a feature file, and a hooks file if one is named, it runs `run_suite` in an empty sandbox, and
//! writes what the sandbox has afterwards. With the word `calls` it makes the calls that no run of the
//! program makes, and writes their results. Without arguments it removes a file in a layer, and writes
//! the result.
#![tactic(auto)]

mod removed_file;
mod single_calls;
mod whole_run;

use gk_cli::Counted;
use gk_world::Sandbox;
use removed_file::remove_in_layer;
use single_calls::make_calls;
use std::env;
use std::io::Write;
use std::process::ExitCode;
use std::rt::{Env, Files};
use whole_run::{read_inputs, run_in, status_of};

// Returns the arguments, the program's name first, if there was memory for them.
fn arguments_of<R: Env + AllocGlobal>(rt: &R) -> Option<Vec<String>> {
    env::args(rt).ok()?.collect(rt.alloc()).ok()
}

// Reports that a run wasn't begun, and returns its status.
fn not_begun<R: Eprint>(rt: &R) -> u8 {
    let _ = eprintln!(rt; "not begun");
    4
}

// Writes the depth of a sandbox, the number of its recorded changes, and its files, variables and
// values.
fn show_sandbox<R: Eprint + AllocGlobal>(rt: &R, sandbox: &Sandbox) {
    let _ = match sandbox.listing(rt.alloc()) {
        Ok(listing) => eprintln!(rt;
            "depth {}, recorded {}, files {:?}, variables {:?}, values {:?}",
            sandbox.depth(),
            sandbox.recorded(),
            listing.files,
            listing.env,
            listing.values
        ),
        Err(_) => eprintln!(rt; "no listing"),
    };
}

// Runs a feature file with the hooks of a file, and writes the report, the result and what the sandbox
// has afterwards.
fn show_run<R: Env + Files + Eprint + AllocGlobal, W: Write>(
    rt: &R,
    feature: &str,
    hooks: Option<&String>,
    out: &mut Counted<W>,
) -> u8 {
    let Some(inputs) = read_inputs(rt, feature, hooks) else {
        return not_begun(rt);
    };
    let mut sandbox = Sandbox::new(rt.alloc());
    let answer = run_in(rt.alloc(), &mut sandbox, &inputs, out);
    let _ = out.flush();
    let _ = eprintln!(rt; "{answer:?}");
    show_sandbox(rt, &sandbox);
    status_of(&answer)
}

// Removes a file in a layer, and writes the result.
fn show_removed_file<R: Eprint + AllocGlobal>(rt: &R) -> u8 {
    let mut sandbox = Sandbox::new(rt.alloc());
    if sandbox.put_file("f", "one").is_err() {
        return not_begun(rt);
    }
    let seen = remove_in_layer(&mut sandbox);
    let _ = eprintln!(rt; "removal {:?}, next {:?}", seen.removal, seen.next);
    let _ = eprintln!(rt; "in the layer {}", seen.is_there);
    let _ = eprintln!(rt; "after it {:?} {:?}", sandbox.file("f"), sandbox.file("g"));
    let _ = eprintln!(rt;
        "depth {}, recorded {}",
        sandbox.depth(),
        sandbox.recorded()
    );
    0
}

// Makes the calls that no run of the program makes, and writes their results.
fn show_single_calls<R: Eprint + AllocGlobal>(rt: &R) -> u8 {
    let Some(made) = make_calls(rt.alloc()) else {
        return not_begun(rt);
    };
    let _ = eprintln!(rt; "read_lines {:?}", made.lines);
    let _ = eprintln!(rt; "expand {:?}", made.cases);
    let _ = eprintln!(rt; "run_case {:?}", made.case);
    let _ = eprintln!(rt; "run_feature {:?}", made.feature);
    let _ = eprintln!(rt; "part {:?}", made.part);
    let _ = eprintln!(rt; "suite {:?}, {:?}", made.of_suite, made.suite);
    0
}

fn main(rt: HostRuntime) -> ExitCode {
    let status = match arguments_of(&rt) {
        Some(arguments) => match arguments.get(1) {
            Some(word) if word.as_str() == "calls" => show_single_calls(&rt),
            Some(feature) => show_run(
                &rt,
                feature,
                arguments.get(2),
                &mut Counted::new(rt.stdout()),
            ),
            None => show_removed_file(&rt),
        },
        None => not_begun(&rt),
    };
    ExitCode::from(status)
}
