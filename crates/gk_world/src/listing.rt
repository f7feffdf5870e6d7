//! Listings of texts by name.
ghost use Rattle.std.specs.Prelude.{OnOk, IfOk, option_copied};
ghost use Rattle.gk_world.specs.Listing.{AreEntries, Notes};

use std::alloc::{AllocError, Global};
use std::collections::BTreeMap;

/// Files, variables and visible values with their names, each list sorted by name in byte order.
#[derive(Drop)]
pub struct Listing {
    pub files: Vec<(String, String)>,
    pub env: Vec<(String, String)>,
    pub values: Vec<(String, String)>,
}

/// Inserts a name with its text, if it has one.
#[tactic(auto, using(crate::proofs::ListingLemmas::put_notes))]
pub fn note(
    alloc: Global,
    texts: &mut BTreeMap<String, String>,
    name: &str,
    text: Option<&str>,
) -> Result<(), AllocError>
    ensures { OnOk result (Notes name.now (option_copied text.entry) texts.old texts.new) }
{
    let Some(text) = text else {
        return Ok(());
    };
    let name = String::from_str(alloc, name)?;
    let text = String::from_str(alloc, text)?;
    texts.insert(name, text)?;
    Ok(())
}

/// Returns the entries as a list, sorted by name.
pub fn sorted(
    alloc: Global,
    texts: BTreeMap<String, String>,
) -> Result<Vec<(String, String)>, AllocError>
    ensures { IfOk result (λ pairs. AreEntries texts pairs.items) }
{
    let mut pairs = Vec::new(alloc);
    for pair in texts {
        pairs.push(pair)?;
    }
    Ok(pairs)
}
