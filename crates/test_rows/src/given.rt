//! What a program that is run over memory is given.
use std::alloc::{AllocError, Global};

/// The words of a command line.
pub fn words_of(alloc: Global, words: &[&str]) -> Result<Vec<String>, AllocError> {
    let mut given = Vec::new(alloc);
    for word in words {
        given.push(word.to_string(alloc)?)?;
    }
    Ok(given)
}

/// The files of a shelf: the name and the bytes of each.
pub fn files_of(
    alloc: Global,
    files: &[(&str, &[u8])],
) -> Result<Vec<(String, Vec<u8>)>, AllocError> {
    let mut given = Vec::new(alloc);
    for (name, bytes) in files {
        given.push((name.to_string(alloc)?, bytes.to_vec(alloc)?))?;
    }
    Ok(given)
}
