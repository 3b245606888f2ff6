//! What helps after a fault of the command line.
use std::alloc::{AllocError, Global};

/// What helps after a fault of which the text of [`Stop::Usage`](command_line::Stop) tells, if more than that text does. `has_capture` says
/// whether an option names the capture.
pub fn tip_of(alloc: Global, told: &str, has_capture: bool) -> Result<Option<String>, AllocError> {
    let (_, word) = told.split_once("unexpected argument '").unwrap_or(("", ""));
    let (word, _) = word.split_once("' found").unwrap_or(("", ""));
    let is_value = told.contains("invalid digit") || told.contains("too large");
    if word.is_empty() && is_value || word.parse::<i64>().is_ok() {
        let tip =
            say!(alloc; "--seed takes a whole number from 0 to 18446744073709551615, --workers from 1 to 16, --cut from 1 to 1048576")?;
        return Ok(Some(tip));
    }
    if word.is_empty() || word.starts_with('-') {
        return Ok(None);
    }
    let is_scenario = word.ends_with(".json");
    if has_capture && !is_scenario {
        return say!(alloc; "{word} is left over: a value with spaces needs quotes, and each of several scenarios a --scenario").map(
            Some,
        );
    }
    let input = if is_scenario { "scenario" } else { "capture" };
    say!(alloc; "pass the {input} with --{input} {word}").map(Some)
}
