//! The bytes of a text: its lines, its comments, and its first byte that is not allowed.
ghost use Rattle.std.specs.Prelude.{◌≡◌, ◌≤◌, length};
ghost use Rattle.limits.specs.declared.TheConstants.{MOST_JOB_BYTES};
ghost use Rattle.job_syntax.specs.Text.{is_allowed, forbidden_line, last_line};
ghost use Rattle.job_syntax.specs.Code.Fronts.{behind_comment};

/// Whether a byte is allowed outside comments.
fn is_allowed(byte: u8) -> bool
    ensures { result ≡ is_allowed byte }
{
    matches!(byte, b'\t' | b'\n' | b'\r' | b' '..=b'~')
}

/// The text behind a comment that is open at its front: from the first line feed on, or nothing.
pub(crate) fn behind_comment(text: &[u8]) -> &[u8]
    ensures left { result.now ≡ behind_comment text.now }
    ensures within { length result.now ≤ length text.now }
{
    let mut left = text;
    while let [first, rest @ ..] = left {
        if *first == b'\n' {
            return left;
        }
        left = rest;
    }
    left
}

/// The line of the first byte outside comments that is not allowed, if any. Lines count from 1.
pub fn forbidden_line(text: &[u8]) -> Option<u32>
    requires { length text.now ≤ MOST_JOB_BYTES }
    ensures { result ≡ forbidden_line text.now }
{
    let mut line = 1;
    let mut left = text;
    while let [first, rest @ ..] = left {
        // a shortcut: these tests decide most bytes
        if matches!(*first, b'$'..=b'~') || *first == b' ' {
            left = rest;
            continue;
        }
        left = match *first {
            b'\n' => {
                line += 1;
                rest
            }
            b'#' => behind_comment(rest),
            byte if is_allowed(byte) => rest,
            _ => return Some(line),
        };
    }
    None
}

/// The number of a text's last line. Lines count from 1.
pub(crate) fn last_line(text: &[u8]) -> u32
    requires { length text.now ≤ MOST_JOB_BYTES }
    ensures { result ≡ last_line text.now }
{
    let mut line = 1;
    for byte in text {
        if *byte == b'\n' {
            line += 1;
        }
    }
    line
}
