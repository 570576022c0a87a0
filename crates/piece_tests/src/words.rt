//! Replies in words.

use seq_objects::Reply;
use std::alloc::AllocError;
use std::fmt::Write;

/// Appends the words of replies, separated by spaces.
pub(crate) fn push_words(words: &mut String, replies: &[Reply]) -> Result<(), AllocError> {
    for (place, reply) in replies.iter().enumerate() {
        if place > 0 {
            words.push(' ')?;
        }
        write!(words, "{reply}")?;
    }
    Ok(())
}
