use gk_cli::{WordsFault, read_words};
use std::test::Fail;

// The message if no file is named.
const NO_FILE: &str =
    "error: the following required arguments were not provided:\n  <FILE>...\n\nUsage: gherkin_run <FILE>...\n\nFor more information, try '--help'.\n";

#[test]
fn no_words_are_a_mistake(rt: HostRuntime) -> Result<(), Fail> {
    match read_words(rt.alloc(), &[]) {
        Err(WordsFault::Usage(mistake)) => {
            let text = format!(in rt.alloc(); "{mistake}")?;
            assert_eq!(rt; text.as_str(), NO_FILE);
            assert_eq!(rt; mistake.exit_code(), 2);
            Ok(())
        }
        _ => Err("no mistake".into()),
    }
}
