//! The words of the command line, and the two files that they name.
ghost use Rattle.std.specs.Prelude.{◌≡◌};
ghost use Rattle.std.specs.Option.{option_map};
ghost use Rattle.batchcheck.specs.Words.{files_of, spelled};
ghost use Rattle.batchcheck.specs.Code.{files_in};

/// The file of a job, and the file of the report that is checked against it.
#[derive(Clone, Copy)]
pub(crate) struct Check<'a> {
    pub(crate) job: &'a str,
    pub(crate) report: &'a str,
}

/// The files that the words name, if they are two words that are not empty, and not both standard input.
pub(crate) fn check_in(words: &[String]) -> Option<Check<'_>>
    ensures { option_map files_in result ≡ files_of (spelled words.now) }
{
    let [job, report] = words else {
        return None;
    };
    let job = job.as_str();
    let report = report.as_str();
    if job.is_empty() || report.is_empty() || (job == "-" && report == "-") {
        return None;
    }
    Some(Check { job, report })
}
