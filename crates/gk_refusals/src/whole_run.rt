//! A run of a feature file, with the hooks of a file.
ghost use Rattle.std.specs.Prelude.{◌≡◌};
ghost use Rattle.gk_world.specs.Sandbox.{depth};

use gk_cli::{Counted, Options, RunFault, Source, read_source, run_suite};
use gk_world::Sandbox;
use std::alloc::Global;
use std::fs;
use std::io::Write;
use std::rt::Files;

/// The inputs of a run.
#[derive(Drop)]
pub struct Inputs {
    options: Options,
    hooks: Option<Vec<u8>>,
    sources: Vec<Source>,
}

// Returns all bytes of a file.
fn bytes_of<R: Files + AllocGlobal>(rt: &R, name: &str) -> Option<Vec<u8>> {
    let file = fs::open(rt, name).ok()?;
    read_source(rt.alloc(), &mut Counted::new(file)).ok()
}

// Returns the sources of a run of one file.
fn sources_of<R: Files + AllocGlobal>(rt: &R, name: &str) -> Option<Vec<Source>> {
    let bytes = bytes_of(rt, name)?;
    let name = String::from_str(rt.alloc(), name).ok()?;
    let mut sources = Vec::new(rt.alloc());
    sources.push(Source { name, bytes }).ok()?;
    Some(sources)
}

/// Reads a feature file, and a hooks file if one is named. Returns nothing if one can't be read or
/// memory was refused.
pub fn read_inputs<R: Files + AllocGlobal>(
    rt: &R,
    feature: &str,
    hooks: Option<&String>,
) -> Option<Inputs> {
    let hooks = match hooks {
        Some(name) => Some(bytes_of(rt, name)?),
        None => None,
    };
    Some(Inputs {
        options: Options::plain(rt.alloc()),
        hooks,
        sources: sources_of(rt, feature)?,
    })
}

/// Runs the inputs with the steps of the built-in library, as `run_suite` does.
pub fn run_in<W: Write>(
    alloc: Global,
    sandbox: &mut Sandbox,
    inputs: &Inputs,
    out: &mut Counted<W>,
) -> Result<u8, RunFault>
    requires outside { depth sandbox.old ≡ 0 }
{
    let hooks = match &inputs.hooks {
        Some(bytes) => Some(bytes.as_slice()),
        None => None,
    };
    let sources = inputs.sources.as_slice();
    run_suite(alloc, sandbox, &inputs.options, None, hooks, sources, out)
}

/// Returns the status of a run, or that of its fault.
pub fn status_of(answer: &Result<u8, RunFault>) -> u8 {
    match answer {
        Ok(status) => *status,
        Err(fault) => fault.status(),
    }
}
