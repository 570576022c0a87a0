//! The words of the command line, and what they ask for.
ghost use Rattle.std.specs.Prelude.{◌≡◌};
ghost use Rattle.std.specs.Option.{option_map};
ghost use Rattle.jobview.specs.Words.{named_file, asked_by, spelled};
ghost use Rattle.jobview.specs.Code.{asked_in};

/// What is shown of a job.
#[derive(Clone, Copy)]
pub enum Form {
    /// A row for each leaf.
    Rows,
    /// The canonical text.
    Text,
}

/// The file of the job that is shown, and what is shown of it.
#[derive(Clone, Copy)]
pub(crate) struct View<'a> {
    pub(crate) file: &'a str,
    pub(crate) form: Form,
}

/// The view of the file that a word names, if the word is not empty and does not begin with `--`.
fn view_of(form: Form, file: &str) -> Option<View<'_>>
    ensures { option_map asked_in result ≡ named_file form file.now }
{
    if file.is_empty() || file.as_bytes().starts_with(b"--") {
        return None;
    }
    Some(View { file, form })
}

/// The view that the words ask for: that of the file that one word names, or behind `--text` of its canonical text.
pub(crate) fn view_in(words: &[String]) -> Option<View<'_>>
    ensures { option_map asked_in result ≡ asked_by (spelled words.now) }
{
    match words {
        [file] => view_of(Form::Rows, file.as_str()),
        [option, file] if option.as_str() == "--text" => view_of(Form::Text, file.as_str()),
        _ => None,
    }
}
