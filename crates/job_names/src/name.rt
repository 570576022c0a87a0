//! Names and their spelling.
ghost use Rattle.std.specs.Prelude.{◌≡◌, ◌≤◌, true, length};
ghost use Rattle.std.specs.List.{list_all};
ghost use Rattle.limits.specs.declared.TheConstants.{MOST_NAME_BYTES};
ghost use Rattle.job_names.specs.Names.{is_letter, is_in_name, is_spelled, name_of, spelling};

use limits::MOST_NAME_BYTES;

/// A name of at most `MOST_NAME_BYTES` bytes. Behind its own bytes there are zeros.
#[derive(Clone, Copy, PartialEq, Eq, Hash)]
pub struct Name {
    pub bytes: [u8; MOST_NAME_BYTES],
    pub len: u8,
}

impl Name {
    /// The name with this spelling.
    ///
    /// Memory: none.
    pub fn of(bytes: Vec<u8>) -> Name
        requires { is_spelled bytes.items ≡ true }
        ensures name { result ≡ name_of bytes.items }
        ensures spelling { spelling result ≡ bytes.items }
    {
        name_of(&bytes)
    }

    /// Its spelling.
    ///
    /// Memory: none.
    pub fn bytes(&self) -> &[u8]
        ensures { result.now ≡ spelling self.now }
    {
        &self.bytes[..usize::from(self.len).min(MOST_NAME_BYTES)]
    }

    /// Its spelling, as text.
    ///
    /// Memory: none.
    pub fn as_str(&self) -> &str
        requires { is_spelled (spelling self.now) ≡ true }
        ensures { result.now ≡ spelling self.now }
    {
        match std::str::from_utf8(self.bytes()) {
            Ok(text) => text,
            Err(_) => "",
        }
    }
}

/// Whether a byte is a letter.
fn is_letter(byte: u8) -> bool
    ensures { result ≡ is_letter byte }
{
    byte.is_ascii_lowercase()
}

/// Whether a byte may stand in a name, behind its first letter.
fn is_in_name(byte: u8) -> bool
    ensures { result ≡ is_in_name byte }
{
    is_letter(byte) || byte.is_ascii_digit() || byte == b'_'
}

/// Whether all bytes may stand in a name, behind its first letter.
fn are_in_name(text: &[u8]) -> bool
    ensures { result ≡ list_all (λ byte. is_in_name byte) text.now }
{
    text.iter().all(|byte| is_in_name(*byte))
}

/// Whether a text is spelled as a name.
pub fn is_spelled(text: &[u8]) -> bool
    ensures { result ≡ is_spelled text.now }
{
    match text {
        [] => false,
        [first, rest @ ..] => is_letter(*first)
            && (rest.len() < MOST_NAME_BYTES && are_in_name(rest)),
    }
}

/// The name that a text of at most `MOST_NAME_BYTES` bytes spells.
pub fn name_of(text: &[u8]) -> Name
    requires { length text.now ≤ MOST_NAME_BYTES }
    ensures { result ≡ name_of text.now }
{
    let mut bytes = [0; MOST_NAME_BYTES];
    bytes[..text.len()].copy_from_slice(text);
    Name {
        bytes,
        len: text.len() as u8,
    }
}
