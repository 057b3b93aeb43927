// Rounds on the open store.
use crate::calls::FusedStore;
use conf_session::{Piece, round};
use probe_words::meant;
use std::alloc::{AllocError, Global};

/// A round of pieces, each of a client of its own: how many answers there are and their text, or why there are none.
pub(crate) fn round_of(
    alloc: Global,
    store: &mut FusedStore,
    words: &[&str],
) -> Result<String, AllocError> {
    let pieces = pieces_of(alloc, words)?;
    match round(alloc, store, pieces.as_slice()) {
        Ok(answers) => joined(alloc, answers.as_slice()),
        Err(fault) => format!(in alloc; "{fault:?}"),
    }
}

/// The pieces that the words mean. The clients are numbered from 0.
fn pieces_of(alloc: Global, words: &[&str]) -> Result<Vec<Piece>, AllocError> {
    let mut pieces = Vec::new(alloc);
    for word in words {
        let client = pieces.len() as u64;
        let bytes = meant(alloc, word)?.into_bytes();
        pieces.push(Piece { client, bytes })?;
    }
    Ok(pieces)
}

/// The answers, one after the other.
fn joined(alloc: Global, answers: &[Vec<u8>]) -> Result<String, AllocError> {
    let mut bytes = Vec::new(alloc);
    for answer in answers {
        bytes.extend_from_slice(answer)?;
    }
    match str::from_utf8(&bytes) {
        Ok(text) => format!(in alloc; "{} answers {text:?}", answers.len()),
        Err(_) => format!(in alloc; "{} answers, no text", answers.len()),
    }
}
