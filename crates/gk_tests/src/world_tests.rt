ghost use Rattle.std.specs.Prelude.{◌≡◌, ◌<◌, ◌+◌};
ghost use Rattle.gk_world.specs.Sandbox.{depth};
ghost use Rattle.gk_world.specs.State.{layers};

use crate::checks::holds;
use gk_world::{Listing, Sandbox, WorldFault};
use std::alloc::{AllocError, Global};

/// A call that changes a sandbox.
#[derive(Clone, Copy)]
enum Call {
    PutFile,
    AppendFile,
    RemoveFile,
    /// The text of the call is the new name.
    RenameFile,
    PutEnv,
    RemoveEnv,
    SetValue,
    DeleteValue,
}

fn make(world: &mut Sandbox, call: Call, name: &str, text: &str) -> Result<(), WorldFault>
    requires { 0 < depth world.old }
    ensures { world.new.saved ≡ world.old.saved }
{
    match call {
        Call::PutFile => world.put_file(name, text),
        Call::AppendFile => world.append_file(name, text),
        Call::RemoveFile => world.remove_file(name),
        Call::RenameFile => world.rename_file(name, text),
        Call::PutEnv => world.put_env(name, text),
        Call::RemoveEnv => world.remove_env(name),
        Call::SetValue => world.set_value(name, text),
        Call::DeleteValue => world.delete_value(name),
    }
}

/// Returns what a call's name has after the call.
fn seen<'a>(world: &'a Sandbox, call: Call, name: &str) -> Option<&'a str> {
    match call {
        Call::PutFile | Call::AppendFile | Call::RemoveFile | Call::RenameFile => world.file(name),
        Call::PutEnv | Call::RemoveEnv => world.env(name),
        Call::SetValue | Call::DeleteValue => world.value(name),
    }
}

/// A call, its name and its text, its result, and what the name has after the call.
type Row = (
    Call,
    &'static str,
    &'static str,
    Result<(), WorldFault>,
    Option<&'static str>,
);

/// Returns the place of the first row that doesn't hold: its call has another result, or the name has
/// something different after it.
fn first_wrong(world: &mut Sandbox, rows: &[Row]) -> Option<usize>
    requires { 0 < depth world.old }
    ensures { world.new.saved ≡ world.old.saved }
{
    for (place, row) in rows.iter().enumerate() {
        let (call, name, text, answer, after) = *row;
        if make(world, call, name, text) != answer || seen(world, call, name) != after {
            return Some(place);
        }
    }
    None
}

const OUTER: [Row; 16] = [
    (Call::AppendFile, "f", "x", Err(WorldFault::Absent), None),
    (Call::RemoveFile, "f", "", Err(WorldFault::Absent), None),
    (Call::RenameFile, "f", "", Err(WorldFault::BadName), None),
    (Call::RenameFile, "f", "g", Err(WorldFault::Absent), None),
    (Call::PutFile, "f", "one", Ok(()), Some("one")),
    (Call::RenameFile, "f", "g", Ok(()), None),
    (Call::RenameFile, "g", "f", Ok(()), None),
    (Call::AppendFile, "f", "two", Ok(()), Some("onetwo")),
    (Call::RemoveFile, "f", "", Ok(()), None),
    (Call::PutFile, "f", "", Ok(()), Some("")),
    (Call::RemoveEnv, "f", "", Err(WorldFault::Absent), None),
    (Call::PutEnv, "f", "v", Ok(()), Some("v")),
    (Call::RemoveEnv, "f", "", Ok(()), None),
    (Call::DeleteValue, "n", "", Err(WorldFault::Absent), None),
    (Call::SetValue, "n", "5", Ok(()), Some("5")),
    (Call::SetValue, "", "5", Err(WorldFault::BadName), None),
];

const INNER: [Row; 6] = [
    (
        Call::DeleteValue,
        "n",
        "",
        Err(WorldFault::OtherLayer),
        Some("5"),
    ),
    (Call::SetValue, "n", "7", Ok(()), Some("7")),
    (Call::DeleteValue, "n", "", Ok(()), Some("5")),
    (Call::RenameFile, "f", "g", Ok(()), None),
    (Call::RenameFile, "g", "h", Ok(()), None),
    (Call::RemoveFile, "h", "", Ok(()), None),
];

/// Makes the calls of the inner rows in a new layer, and ends it. Returns the first wrong row, and the
/// depth and the number of recorded changes inside the layer.
fn in_inner_layer(world: &mut Sandbox) -> (Option<usize>, usize, usize)
    requires { depth world.old < layers }
    ensures { world.new.saved ≡ world.old.saved }
{
    let layer = world.begin();
    let wrong = first_wrong(world, &INNER);
    let inside = (wrong, world.depth(), world.recorded());
    world.end(layer);
    inside
}

/// Reports whether the rows of an outer layer hold, with an inner layer in it, when both layers end.
fn both_layers_hold(world: &mut Sandbox) -> bool
    requires { depth world.old ≡ 0 }
    ensures { world.new.saved ≡ world.old.saved }
{
    let layer = world.begin();
    let wrong = first_wrong(world, &OUTER);
    let (wrong_inside, depth, recorded) = in_inner_layer(world);
    let recorded_after = world.recorded();
    let is_there = world.file("f").is_some();
    world.end(layer);
    wrong.is_none()
        && wrong_inside.is_none()
        && depth == 2
        && recorded == 14
        && recorded_after == 9
        && is_there
}

#[test]
fn calls_answer_and_change_as_stated(rt: HostRuntime) {
    let mut world = Sandbox::new(rt.alloc());
    holds(&rt, both_layers_hold(&mut world));
    holds(&rt, world.file("f").is_none() && world.recorded() == 0);
}

/// Makes a call at each name, and counts those that are carried out.
fn change_all(world: &mut Sandbox, names: &[String], round: usize) -> usize
    requires { 0 < depth world.old }
    ensures { world.new.saved ≡ world.old.saved }
{
    let calls = [
        Call::PutFile,
        Call::AppendFile,
        Call::SetValue,
        Call::PutEnv,
        Call::RemoveFile,
        Call::DeleteValue,
        Call::RemoveEnv,
        Call::RenameFile,
    ];
    let mut done: usize = 0;
    for (place, name) in names.iter().enumerate() {
        let call = calls[place.wrapping_add(round) % 8];
        if make(world, call, name, "text").is_ok() {
            done = done.saturating_add(1);
        }
    }
    done
}

/// Makes calls at all names, round after round, and counts those that are carried out.
fn change_rounds(world: &mut Sandbox, names: &[String], rounds: usize) -> usize
    requires { 0 < depth world.old }
    ensures { world.new.saved ≡ world.old.saved }
{
    let mut done: usize = 0;
    for round in 0..rounds {
        done = done.saturating_add(change_all(world, names, round));
    }
    done
}

fn is_same(one: &Listing, other: &Listing) -> bool {
    one.files == other.files && one.env == other.env && one.values == other.values
}

fn forty_names(alloc: Global) -> Result<Vec<String>, AllocError> {
    let mut names = Vec::new(alloc);
    for number in 0..40 {
        names.push(format!(in alloc; "name {number}")?)?;
    }
    Ok(names)
}

/// Puts a file and a variable for each of these names.
fn fill(world: &mut Sandbox, names: &[String]) -> Result<(), WorldFault>
    ensures { world.new.saved ≡ world.old.saved }
{
    for name in names {
        world.put_file(name, "before")?;
        world.put_env(name, "before")?;
    }
    Ok(())
}

/// Makes changes in a new layer, and ends it. Returns the number of changes that were carried out.
fn change_in_layer(world: &mut Sandbox, names: &[String], rounds: usize) -> usize
    requires { depth world.old < layers }
    ensures { world.new.saved ≡ world.old.saved }
{
    let layer = world.begin();
    let done = change_rounds(world, names, rounds);
    world.end(layer);
    done
}

/// Makes changes in a layer and in one inside it. Returns the number that were carried out in each.
fn change_in_two_layers(world: &mut Sandbox, names: &[String], rounds: usize) -> (usize, usize)
    requires { depth world.old + 1 < layers }
    ensures { world.new.saved ≡ world.old.saved }
{
    let layer = world.begin();
    let done = change_rounds(world, names, rounds);
    let inside = change_in_layer(world, names, rounds);
    world.end(layer);
    (done, inside)
}

/// Makes changes in three layers, one inside the other. Reports whether a thousand were carried out,
/// and whether those of the two inner layers aren't recorded any more after these layers ended.
fn three_layers_end(world: &mut Sandbox, names: &[String], rounds: usize) -> bool
    requires { depth world.old ≡ 0 }
    ensures { world.new.saved ≡ world.old.saved }
{
    let layer = world.begin();
    let done = change_rounds(world, names, rounds);
    let (middle, inner) = change_in_two_layers(world, names, rounds);
    let recorded = world.recorded();
    world.end(layer);
    let all = done.saturating_add(middle).saturating_add(inner);
    all >= 1000 && recorded == done
}

/// Reports whether everything is as before, after three layers with a thousand changes.
fn three_layers_give_back(world: &mut Sandbox, alloc: Global) -> Result<bool, WorldFault>
    requires { depth world.old ≡ 0 }
{
    let names = forty_names(alloc)?;
    fill(world, &names)?;
    let before = world.listing(alloc)?;
    let are_thousand = three_layers_end(world, &names, 11);
    let after = world.listing(alloc)?;
    Ok(are_thousand && is_same(&before, &after))
}

#[test]
fn three_layers_give_back_a_thousand_changes(rt: HostRuntime) {
    let mut world = Sandbox::new(rt.alloc());
    let answer = three_layers_give_back(&mut world, rt.alloc());
    holds(&rt, matches!(answer, Ok(true)));
}
