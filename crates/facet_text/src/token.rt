//! The tokens of the text of a complex.

ghost use Rattle.std.specs.Prelude.{◌≡◌, ◌<◌, ◌≤◌, ◌+◌, length, drop, IfSome, MatchOption, [], ◌∷◌, slice_range};
ghost use Rattle.std.specs.List.{prefix_len};
ghost use Rattle.std.specs.Prelude.{◌↔◌, ℕ, slice_index, IsNone};
ghost use Rattle.std.specs.List.{AllPass};
ghost use Rattle.facet_text.specs.Tokens.{has, is_blank, kind_at, more_at, sign_kind, tokens, view};
ghost use Rattle.facet_text.specs.declared.token.Class.TheVariants.{Blank, Digit};

/// The kinds of tokens; `Other` is one byte at which no token of the grammar begins.
#[derive(Clone, Copy, Debug, PartialEq, Eq)]
pub enum TokenKind {
    Name,
    Label,
    Open,
    Close,
    Comma,
    Assign,
    Semicolon,
    Other,
}

/// A token, with the bytes at its span.
#[derive(Clone, Copy, Debug, PartialEq, Eq)]
pub struct Token<'a> {
    pub kind: TokenKind,
    pub text: &'a [u8],
    pub start: usize,
    pub end: usize,
}

/// The classes of bytes of which runs are read.
#[derive(Clone, Copy, Debug, PartialEq, Eq)]
enum Class {
    Blank,
    Digit,
    Letter,
    NameByte,
}

impl Class {
    #[tactic(auto, unfolding(crate::specs::Tokens::has))]
    fn has(self, byte: u8) -> bool
        ensures { result ≡ has self byte }
    {
        match self {
            Class::Blank => is_blank(byte),
            Class::Digit => byte.is_ascii_digit(),
            Class::Letter => byte.is_ascii_alphabetic(),
            Class::NameByte => byte.is_ascii_alphanumeric()
                || matches!(byte, b'_' | b'#' | b'.' | b'-'),
        }
    }
}

/// Whether a byte is a space, a tab, a carriage return or a line feed.
pub(crate) fn is_blank(byte: u8) -> bool
    ensures { result ≡ is_blank byte }
{
    matches!(byte, b' ' | b'\t' | b'\r' | b'\n')
}

/// Where the longest run of bytes of a class ends that begins at an offset.
fn run_end(bytes: &[u8], from: usize, class: Class) -> usize
    requires { from ≤ length bytes.now }
    ensures end { result ≡ from + prefix_len (has class) (drop from bytes.now) }
    ensures within { result ≤ length bytes.now }
{
    let mut end = from;
    while end < bytes.len() && class.has(bytes[end]) {
        end += 1;
    }
    end
}

/// The kind of the token that begins at an offset, and where it ends.
#[tactic(auto, unfolding(crate::specs::Tokens::kind_at, crate::specs::Tokens::more_at))]
fn span_at(bytes: &[u8], start: usize) -> (TokenKind, usize)
    requires { start < length bytes.now }
    ensures kind { result.0 ≡ kind_at (slice_index bytes.now start) (drop (start + 1) bytes.now) }
    ensures end { result.1 ≡ start + 1 + more_at (slice_index bytes.now start) (drop (start + 1) bytes.now) }
    ensures within { result.1 ≤ length bytes.now }
{
    let byte = bytes[start];
    let next = start + 1;
    if Class::Letter.has(byte) {
        return (TokenKind::Name, run_end(bytes, next, Class::NameByte));
    }
    if Class::Digit.has(byte) {
        return (TokenKind::Label, run_end(bytes, next, Class::Digit));
    }
    if byte == b':' && next < bytes.len() && bytes[next] == b'=' {
        return (TokenKind::Assign, next + 1);
    }
    (sign_kind(byte), next)
}

fn sign_kind(byte: u8) -> TokenKind
    ensures { result ≡ sign_kind byte }
{
    match byte {
        b'[' => TokenKind::Open,
        b']' => TokenKind::Close,
        b',' => TokenKind::Comma,
        b'=' => TokenKind::Assign,
        b';' => TokenKind::Semicolon,
        _ => TokenKind::Other,
    }
}

/// The first token at or after an offset.
pub fn next_token(bytes: &[u8], from: usize) -> Option<Token<'_>>
    requires { from ≤ length bytes.now }
    ensures first { MatchOption result (tokens bytes.now from ≡ [])
        (λ t. tokens bytes.now from ≡ view t ∷ tokens bytes.now t.end) }
    ensures span { IfSome result (λ t. t.text.now ≡ slice_range bytes.now t.start t.end) }
    ensures blanks { IfSome result (λ t. AllPass (has Blank) (slice_range bytes.now from t.start)) }
    ensures offset { IfSome result (λ t. (from ≤ t.start) × (t.start < t.end) × (t.end ≤ length bytes.now)) }
    ensures end { IfSome result (λ t. t.end ≡ t.start + length t.text.now) }
    ensures none { IsNone result ↔ AllPass (has Blank) (drop from bytes.now) }
    ensures digits { IfSome result (λ t. t.kind ≡ TokenKind.Label → AllPass (has Digit) t.text.now) }
{
    let start = run_end(bytes, from, Class::Blank);
    if start == bytes.len() {
        return None;
    }
    let (kind, end) = span_at(bytes, start);
    Some(Token {
        kind,
        text: &bytes[start..end],
        start,
        end,
    })
}
