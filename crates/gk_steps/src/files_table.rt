//! Tables of files: a header and rows of a name and a text.
ghost use Rattle.std.specs.Prelude.{◌≡◌, map, option_map};
ghost use Rattle.gk_gherkin.specs.Feature.{texts};
ghost use Rattle.gk_steps.specs.FilesTable as spec;

fn is_header(row: &[String]) -> bool
    ensures { result ≡ spec.is_header (texts row.now) }
{
    match row {
        [name, text] => name.as_str() == "name" && text.as_str() == "text",
        _ => false,
    }
}

fn is_pair(row: &[String]) -> bool
    ensures { result ≡ spec.is_pair (texts row.now) }
{
    row.len() == 2
}

fn are_pairs(rows: &[Vec<String>]) -> bool
    ensures { result ≡ spec.are_pairs (map (λ row. texts row.items) rows.now) }
{
    for row in rows {
        if !is_pair(row) {
            return false;
        }
    }
    true
}

/// Returns the rows below the header of a table of files, or `None` if the table is another. The header is `name` and
/// `text`, and each row below it has two cells. Doesn't allocate.
pub fn files_below(rows: &[Vec<String>]) -> Option<&[Vec<String>]>
    ensures { option_map (λ rows. map (λ row. texts row.items) rows.now) result
        ≡ spec.files_below (map (λ row. texts row.items) rows.now) }
{
    match rows.split_first() {
        None => None,
        Some((header, files)) => {
            if is_header(header) && are_pairs(files) {
                Some(files)
            } else {
                None
            }
        }
    }
}
