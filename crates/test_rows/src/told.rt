//! What a test tells.
use std::test::Fail;

/// The end of a test of rows, where `wrong` is the place of the first that goes otherwise, if there is one. Places start
/// at 0.
pub fn all_hold(wrong: Option<usize>) -> Result<(), Fail> {
    match wrong {
        None => Ok(()),
        Some(place) => Err(Fail::new(format_args!("row {place} goes otherwise"))),
    }
}
