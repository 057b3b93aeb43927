// Where refused texts are at fault, and why.
use probe_words::{bytes_of, no_order, wrong_escape};
use std::alloc::{AllocError, Global};
use yaml_refusals::{Excerpt, Limits, Refusal, first_comment, remedy};
use yaml_tree::read_one;

/// Limits that short texts can pass.
const SMALL: Limits = Limits {
    bytes: 40,
    depth: 3,
    style: 48,
};

/// The answer to an order on bytes.
pub(crate) fn answer(alloc: Global, call: &str, written: &str) -> Result<String, AllocError> {
    let Some(bytes) = bytes_of(alloc, written)? else {
        return wrong_escape(alloc);
    };
    if call == "comment" {
        return commented(alloc, &bytes);
    }
    let limits = match call {
        "small" => SMALL,
        _ => Limits::CONFIGURATION,
    };
    match read_one(alloc, &bytes, &limits) {
        Ok(_) => String::from_str(alloc, "read"),
        Err(fault) => refused(
            alloc,
            call,
            &bytes,
            &Refusal::of(alloc, &bytes, &limits, fault)?,
        ),
    }
}

fn commented(alloc: Global, bytes: &[u8]) -> Result<String, AllocError> {
    match first_comment(alloc, bytes) {
        Ok(Some(place)) => format!(in alloc; "{place}"),
        Ok(None) => String::from_str(alloc, "none"),
        Err(fault) => format!(in alloc; "{fault}"),
    }
}

fn refused(
    alloc: Global,
    call: &str,
    bytes: &[u8],
    refusal: &Refusal,
) -> Result<String, AllocError> {
    match call {
        "line" | "small" => lined(alloc, refusal),
        "sentence" => format!(in alloc; "{refusal}"),
        "excerpt" => excerpted(alloc, bytes, refusal),
        "remedy" => String::from_str(alloc, remedy(refusal.fault)),
        _ => no_order(alloc),
    }
}

fn lined(alloc: Global, refusal: &Refusal) -> Result<String, AllocError> {
    let brief = refusal.brief();
    match refusal.place {
        Some(place) => format!(in alloc; "{place}: {brief}"),
        None => format!(in alloc; "{brief}"),
    }
}

fn excerpted(alloc: Global, bytes: &[u8], refusal: &Refusal) -> Result<String, AllocError> {
    let Some(place) = refusal.place else {
        return String::from_str(alloc, "no place");
    };
    let shown = Excerpt::new(bytes, place).to_string(alloc)?;
    format!(in alloc; "{shown:?}")
}
