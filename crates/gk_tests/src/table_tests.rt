use crate::checks::{equal, holds};
use crate::steps_tests::repeated;
use gk_world::{
    Journal, LONGEST_NAME, LONGEST_TEXT, Reversible, Table, TableChange, ValueChange, Values,
    WorldFault, is_bad_name,
};
use std::alloc::{AllocError, Global};

// Returns the change that appends a text to that of a name.
fn append(alloc: Global, name: &str, more: &str) -> Result<TableChange, AllocError> {
    let name = String::from_str(alloc, name)?;
    let more = String::from_str(alloc, more)?;
    Ok(TableChange::Append(name, more))
}

// Returns a table in which the file `a` has a text.
fn table_of(alloc: Global, text: &str) -> Result<Table, WorldFault> {
    let name = String::from_str(alloc, "a")?;
    let text = String::from_str(alloc, text)?;
    let mut table = Table::new(alloc);
    table.apply(TableChange::Put(name, text))?;
    Ok(table)
}

#[test]
fn appends_are_applied_and_undone(rt: HostRuntime) -> Result<(), WorldFault> {
    let mut table = table_of(rt.alloc(), "one")?;
    let undo = table.apply(append(rt.alloc(), "a", "two")?)?;
    equal(&rt, &table.get("a"), &Some("onetwo"));
    table.undo(undo);
    equal(&rt, &table.get("a"), &Some("one"));
    let refused = table.apply(append(rt.alloc(), "b", "two")?);
    holds(&rt, matches!(refused, Err(WorldFault::Absent)));
    Ok(())
}

#[test]
fn names_have_a_byte_at_least_and_a_greatest_length(rt: HostRuntime) -> Result<(), AllocError> {
    holds(&rt, is_bad_name("") && !is_bad_name("n"));
    let longest = repeated(rt.alloc(), 'n', LONGEST_NAME - 1, 'n')?;
    holds(&rt, !is_bad_name(longest.as_str()));
    let longer = repeated(rt.alloc(), 'n', LONGEST_NAME, 'n')?;
    holds(&rt, is_bad_name(longer.as_str()));
    Ok(())
}

#[test]
fn tables_say_why_a_change_is_refused(rt: HostRuntime) -> Result<(), WorldFault> {
    let table = table_of(rt.alloc(), "x")?;
    let longest = repeated(rt.alloc(), 't', LONGEST_TEXT - 1, 't')?;
    equal(&rt, &table.append_refusal("a", "y"), &None);
    equal(
        &rt,
        &table.append_refusal("", "y"),
        &Some(WorldFault::BadName),
    );
    equal(
        &rt,
        &table.append_refusal("b", longest.as_str()),
        &Some(WorldFault::Absent),
    );
    equal(
        &rt,
        &table.append_refusal("a", longest.as_str()),
        &Some(WorldFault::TextTooLong),
    );
    equal(&rt, &table.remove_refusal("a"), &None);
    equal(&rt, &table.remove_refusal(""), &Some(WorldFault::BadName));
    equal(&rt, &table.remove_refusal("b"), &Some(WorldFault::Absent));
    equal(&rt, &table.rename_refusal("a", "b"), &None);
    equal(
        &rt,
        &table.rename_refusal("b", ""),
        &Some(WorldFault::BadName),
    );
    equal(
        &rt,
        &table.rename_refusal("b", "a"),
        &Some(WorldFault::Absent),
    );
    Ok(())
}

#[test]
fn values_say_why_one_is_not_deleted(rt: HostRuntime) -> Result<(), WorldFault> {
    let mut values = Values::new(rt.alloc());
    let name = String::from_str(rt.alloc(), "n")?;
    let text = String::from_str(rt.alloc(), "5")?;
    let undo = values.apply(ValueChange::Set(1, name, text))?;
    equal(&rt, &Values::get(&values, 2, "n"), &Some("5"));
    equal(&rt, &Values::get(&values, 0, "n"), &None);
    equal(&rt, &values.delete_refusal(1, "n"), &None);
    equal(
        &rt,
        &values.delete_refusal(2, "n"),
        &Some(WorldFault::OtherLayer),
    );
    equal(
        &rt,
        &values.delete_refusal(2, "m"),
        &Some(WorldFault::Absent),
    );
    equal(
        &rt,
        &values.delete_refusal(1, ""),
        &Some(WorldFault::BadName),
    );
    values.undo(undo);
    equal(&rt, &Values::get(&values, 2, "n"), &None);
    Ok(())
}

#[test]
fn journals_rewind(rt: HostRuntime) -> Result<(), WorldFault> {
    let mut table = table_of(rt.alloc(), "one")?;
    let mut journal = Journal::new(rt.alloc());
    let more = append(rt.alloc(), "a", "two")?;
    journal.change(&mut table, more)?;
    equal(&rt, &Table::get(&table, "a"), &Some("onetwo"));
    equal(&rt, &Journal::len(&journal), &1);
    journal.rewind(&mut table, 0);
    equal(&rt, &Table::get(&table, "a"), &Some("one"));
    equal(&rt, &Journal::len(&journal), &0);
    Ok(())
}
