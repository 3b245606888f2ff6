//! Names, paths and values as a terminal shows them: short, and without a character that would command it.
use crate::lines::Said;
use std::alloc::Global;

// The most characters that are shown of a name or a value.
const TEXT_LIMIT: usize = 60;

// The most characters that are shown of a path.
const PATH_LIMIT: usize = 200;

// The first characters of a text, escaped if they do not print, and two dots if it is longer. Quotes and backslashes stay.
fn first_of(alloc: Global, text: &str, most: usize) -> Said {
    let mut shown = String::new(alloc);
    for (place, c) in text.chars().enumerate() {
        match c {
            _ if place == most => {
                shown.push_str("..")?;
                break;
            }
            '\'' | '"' | '\\' => shown.push(c)?,
            _ => write!(shown, "{}", c.escape_debug())?,
        }
    }
    Ok(shown)
}

pub(crate) fn shown(alloc: Global, text: &str) -> Said {
    first_of(alloc, text, TEXT_LIMIT)
}

pub(crate) fn quoted(alloc: Global, text: &str) -> Said {
    say!(alloc; "\"{}\"", shown(alloc, text)?)
}

/// A path as it is shown: an empty one in quotes.
pub fn shown_path(alloc: Global, path: &str) -> Said {
    let shown = if path.is_empty() { "\"\"" } else { path };
    first_of(alloc, shown, PATH_LIMIT)
}
