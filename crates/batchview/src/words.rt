//! The words of the command line, and the file that they name.
ghost use Rattle.std.specs.Prelude.{◌≡◌};
ghost use Rattle.std.specs.Option.{option_map};
ghost use Rattle.batchview.specs.Words.{file_of, spelled};
ghost use Rattle.batchview.specs.Code.{file_in};

/// The file of the report that is drawn.
#[derive(Clone, Copy)]
pub(crate) struct View<'a> {
    pub(crate) file: &'a str,
}

/// The file that the words name, if they are one word that is not empty and does not begin with `--`.
pub(crate) fn view_in(words: &[String]) -> Option<View<'_>>
    ensures { option_map file_in result ≡ file_of (spelled words.now) }
{
    let [file] = words else {
        return None;
    };
    let file = file.as_str();
    if file.is_empty() || file.as_bytes().starts_with(b"--") {
        return None;
    }
    Some(View { file })
}
