//! The scanner: the tokens of a text, one after another.
ghost use Rattle.std.specs.Prelude.{◌≡◌, ◌+◌, ◌<◌, ◌≤◌, ◌^◌, [], ◌∷◌, MatchOption, length, IsTrue};
ghost use Rattle.std.specs.List.{prefix_len};
ghost use Rattle.limits.specs.declared.TheConstants.{MOST_JOB_BYTES};
ghost use Rattle.job_syntax.specs.Text.{is_brace, is_in_chunk, tokens};
ghost use Rattle.job_syntax.specs.Code.Fronts.{begins_token, token_len};

use crate::lexer::text::behind_comment;

/// A token, which is a brace or a chunk, and the line of its first byte.
#[derive(Clone, Copy)]
pub(crate) struct Token<'a> {
    pub(crate) text: &'a [u8],
    pub(crate) line: u32,
}

/// The text that is left to scan, and the line number at its front.
#[derive(Drop)]
pub(crate) struct Scanner<'a> {
    text: &'a [u8],
    line: u32,
    ghost line_fits: { line + length text.now < 2 ^ 32 },
}

/// Whether a byte is `{` or `}`.
fn is_brace(byte: u8) -> bool
    ensures { result ≡ is_brace byte }
{
    matches!(byte, b'{' | b'}')
}

/// Whether a byte outside comments belongs to a chunk. The first test decides most bytes.
fn is_in_chunk(byte: u8) -> bool
    ensures { result ≡ is_in_chunk byte }
{
    matches!(byte, b'$'..=b'z')
        || !matches!(byte, b'\t' | b'\n' | b'\r' | b' ' | b'{' | b'}' | b'#')
}

/// The length of the chunk at the front, 0 where none is.
fn chunk_len(text: &[u8]) -> usize
    ensures { result ≡ prefix_len (λ byte. is_in_chunk byte) text.now }
{
    for (len, byte) in text.iter().enumerate() {
        if !is_in_chunk(*byte) {
            return len;
        }
    }
    text.len()
}

/// The length of the token at the front.
fn token_len(text: &[u8]) -> usize
    ensures { result ≡ token_len text.now }
{
    match text {
        [first, ..] if is_brace(*first) => 1,
        _ => chunk_len(text),
    }
}

impl<'a> Scanner<'a> {
    ghost use Rattle.job_syntax.specs.Code.Scanners.{tokens_left};

    /// A scanner at the front of a text, on line 1.
    pub(crate) fn new(text: &'a [u8]) -> Scanner<'a>
        requires { length text.now ≤ MOST_JOB_BYTES }
        ensures { tokens_left result ≡ tokens text.now }
    {
        Scanner { text, line: 1 }
    }

    /// Skips the blanks and comments at the front.
    #[tactic(auto, using(crate::proofs::LexerLemmas::Skips::passes))]
    fn skip(&mut self)
        ensures left { tokens_left self.new ≡ tokens_left self.old }
        ensures begins { IsTrue (begins_token self.new.text.now) }
    {
        while let [first, rest @ ..] = self.text {
            match *first {
                b'\n' => {
                    self.line += 1;
                    self.text = rest;
                }
                b'#' => self.text = behind_comment(rest),
                b' ' | b'\t' | b'\r' => self.text = rest,
                _ => return,
            }
        }
    }

    /// Takes the next token, if one is left.
    #[tactic(auto, using(crate::proofs::LexerLemmas::Chunks::first_token, crate::proofs::LexerLemmas::Chunks::token_len_within))]
    pub(crate) fn next_token(&mut self) -> Option<Token<'a>>
        ensures { MatchOption result ((tokens_left self.old ≡ []) × (tokens_left self.new ≡ []))
            (λ token.
            tokens_left self.old
            ≡ record { text = token.text.now; line = token.line } ∷ tokens_left self.new) }
    {
        self.skip();
        if self.text.is_empty() {
            return None;
        }
        let (text, rest) = self.text.split_at(token_len(self.text));
        self.text = rest;
        Some(Token {
            text,
            line: self.line,
        })
    }
}
