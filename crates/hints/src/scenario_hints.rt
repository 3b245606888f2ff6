//! What helps if a scenario was refused.
ghost use Rattle.std.specs.Prelude.{◌≡◌, [], IfOk, codes};
ghost use Rattle.std.specs.Fmt.{decimal};
ghost use Rattle.std.specs.String.{string_bytes};
ghost use Rattle.hints.specs.Hints.{IsAbout, count_words, told};

use crate::attributes::{field, items, its, kind_of, text_at, wrong_field};
use crate::captures::unit_of;
use crate::lines::{Said, Speaker, about, numbered};
use crate::shown::{quoted, shown_path};
use crate::toxic_hints::toxic_hint;
use scenarios::{Cause, Refusal};
use serde_json::{Error, Value, from_slice};
use std::alloc::{AllocError, Global};

// The fields of a proxy: what each is, and whether it has to be there.
const FIELDS: &[(&str, &str, bool)] = &[
    ("name", "a text", true),
    ("upstream", "a text", true),
    ("enabled", "true or false", false),
    ("toxics", "an array", false),
    ("listen", "a text", false),
];

/// What helps if this number of scenarios was refused.
pub fn count_hint(alloc: Global, speaker: Speaker, count: usize) -> Said
    ensures exact { IfOk result (λ line. string_bytes line ≡ told (decimal count) [] (count_words speaker)) }
    ensures about { IfOk result (λ line. IsAbout (decimal count) (string_bytes line)) }
{
    let count = numbered(alloc, "", count)?;
    about(alloc, &count, "", count_words(speaker))
}

fn count_words(speaker: Speaker) -> &'static str
    ensures { result.now ≡ count_words speaker }
{
    match speaker {
        Speaker::Program => "scenarios were named, and a run takes 256: run it more than once",
        Speaker::Call => "scenarios were given, and a call takes 256: call more than once",
    }
}

/// What helps if the scenario with this name has too many bytes.
pub fn length_hint(alloc: Global, name: &str) -> Said
    ensures exact { IfOk result (λ line. string_bytes line ≡ told name.now [] (codes "has more than 2^30 bytes: it is no scenario")) }
    ensures about { IfOk result (λ line. IsAbout name.now (string_bytes line)) }
{
    let hint = "has more than 2^30 bytes: it is no scenario";
    about(alloc, name, "", hint)
}

/// What helps if the scenario with this name and text was refused.
pub fn scenario_hint(
    alloc: Global,
    speaker: Speaker,
    name: &str,
    text: &[u8],
    refusal: &Refusal,
) -> Said
    ensures { IfOk result (λ line. IsAbout name.now (string_bytes line)) }
{
    // the first tells more of what is no JSON, and takes more stack than a call may have
    let tree = match speaker {
        Speaker::Program => from_slice::<Value>(alloc, text),
        Speaker::Call => Value::from_slice(alloc, text),
    };
    match tree {
        Ok(tree) => tree_hint(alloc, speaker, name, &tree, refusal),
        Err(error) if error.is_memory() => Err(AllocError),
        Err(_) if unit_of(text).is_some() || text.starts_with(b"\n\r\r\n") => {
            let hint = speaker.says(
                "is a capture: give it by --capture",
                "is a capture: give it as the capture",
            );
            about(alloc, name, "", hint)
        }
        Err(_) if text.ends_with(b".json") => {
            let hint = "has a path in place of JSON: give the text of that file";
            about(alloc, name, "", hint)
        }
        Err(error) => about(alloc, name, "", &json_hint(alloc, speaker, &error)?),
    }
}

fn json_hint(alloc: Global, speaker: Speaker, error: &Error) -> Said {
    let (line, column, cause) = (error.line(), error.column(), error.to_string(alloc)?);
    if error.is_eof() {
        return say!(alloc; "ends before its JSON does");
    }
    if cause.starts_with("number") {
        let help = speaker.says("--help", "toxicap --help");
        return say!(alloc; "has a number too large for a float at line {line} column {column}: attributes are whole numbers, as {help} shows");
    }
    if cause.starts_with("invalid value") {
        return say!(alloc; "nests deeper than 127 levels at line {line} column {column}: a scenario needs five");
    }
    say!(alloc; "is no JSON from line {line} column {column} on")
}

fn tree_hint(alloc: Global, speaker: Speaker, name: &str, tree: &Value, refusal: &Refusal) -> Said
    ensures { IfOk result (λ line. IsAbout name.now (string_bytes line)) }
{
    let Some(number) = refusal.proxy else {
        return about(alloc, name, "", &array_hint(alloc, speaker, tree)?);
    };
    let proxy = tree.get(number).unwrap_or(&Value::Null);
    let place = named(alloc, "proxy", number, proxy)?;
    let Some(number) = refusal.toxic else {
        let hint = proxy_hint(alloc, speaker, tree, proxy, refusal.cause)?;
        return about(alloc, name, &say!(alloc; ", {place}:")?, &hint);
    };
    let toxic = field(proxy, "toxics").and_then(|toxics| toxics.get(number));
    let toxic = toxic.unwrap_or(&Value::Null);
    let toxic_place = named(alloc, "toxic", number, toxic)?;
    let hint = toxic_hint(alloc, toxic, refusal.cause)?;
    let place = say!(alloc; ", {place}, {toxic_place}:")?;
    about(alloc, name, &place, &hint)
}

// What helps if a text is no array. A live Toxiproxy prints an object that has its proxies by their names.
fn array_hint(alloc: Global, speaker: Speaker, tree: &Value) -> Said {
    if let Some(proxies) = tree.as_object() {
        for (_, proxy) in proxies.iter() {
            if field(proxy, "upstream").is_some() {
                return say!(alloc; "is an object, as a live Toxiproxy prints it: jq -f examples/ppm.jq IN > OUT makes a scenario of it");
            }
        }
    }
    let help = speaker.says("--help", "toxicap --help");
    say!(alloc; "is {}, and an array of proxies is expected, as {help} shows", kind_of(tree))
}

// The number of a proxy or a toxic, and its name if it has one.
fn named(alloc: Global, what: &str, number: usize, value: &Value) -> Said {
    match text_at(value, "name") {
        "" => say!(alloc; "{what} {number}"),
        name => say!(alloc; "{what} {number} {}", quoted(alloc, name)?),
    }
}

fn proxy_hint(alloc: Global, speaker: Speaker, tree: &Value, proxy: &Value, cause: Cause) -> Said {
    let upstream = text_at(proxy, "upstream");
    match cause {
        Cause::BadMember => wrong_field(alloc, proxy, FIELDS),
        Cause::DuplicateProxy => {
            let has_name = |each: &Value| text_at(each, "name") == text_at(proxy, "name");
            let earlier = items(Some(tree)).iter().position(has_name).unwrap_or(0);
            say!(alloc; "proxy {earlier} has the name: rename one of them")
        }
        Cause::BadUpstream => {
            let expected =
                "HOST:PORT is expected, such as 10.0.0.2:6379 or redis:6379: no URL, no IPv6 address, a port from 1 to 65535";
            its(alloc, proxy, "upstream", expected)
        }
        Cause::UnknownHost => {
            let host = upstream.rsplit_once(':').map_or(upstream, |(host, _)| host);
            let host = shown_path(alloc, host)?;
            match speaker {
                Speaker::Program =>
                    say!(alloc; "names are not looked up: give the address that the capture has by --host {host}=ADDR"),
                Speaker::Call =>
                    say!(alloc; "names are not looked up: give the address that the capture has by {host}=ADDR among the hosts"),
            }
        }
        _ => say!(alloc; "it is the 65th: a scenario has at most 64 proxies"),
    }
}
