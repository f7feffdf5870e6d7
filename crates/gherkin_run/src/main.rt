//! The program on a machine: with its arguments and its files, its standard output and its standard error.
#![tactic(auto)]

ghost use Rattle.std.specs.Process.{exit_status};
ghost use Rattle.gk_cli.specs.Writing.{device_of};
ghost use Rattle.gherkin_run.specs.Machine.{IsRunOn, reads_some};

mod machine;

use gk_io::Counted;
use gk_program::run;
use machine::{Machine, program_arguments};
use std::io::Write;
use std::process::ExitCode;
use std::rt::{Env, Files};

// Runs the program with the arguments and the files of this machine, and returns what it ends with.
fn run_on<R: Env + Files + AllocGlobal, W: Write, E: Write>(
    machine: &mut Machine<'_, R>,
    out: &mut Counted<W>,
    errors: &mut Counted<E>,
) -> ExitCode
    ensures { IsRunOn (reads_some R.File.remaining) machine.old machine.new
        (device_of W.contents out.old) (device_of W.contents out.new)
        (device_of E.contents errors.old) (device_of E.contents errors.new) (exit_status result) }
{
    let arguments = program_arguments(machine.rt);
    let ended = run(machine.rt.alloc(), machine, arguments, out, errors);
    ExitCode::from(ended.status)
}

fn main(rt: HostRuntime) -> ExitCode {
    run_on(
        &mut Machine { rt: &rt },
        &mut Counted::new(rt.stdout()),
        &mut Counted::new(rt.stderr()),
    )
}
