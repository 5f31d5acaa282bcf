//! Texts cut into lines, and lines into tokens.
ghost use Rattle.sn_scenario.specs.Cutting.{behind, behind_token, first_token, front, is_blank, is_line_byte, is_no_feed, is_remark, is_token_byte, without_return};
ghost use Rattle.std.specs.List.{list_all, prefix_len};
ghost use Rattle.std.specs.Prelude.{drop, length, ◌≡◌, ◌≤◌};

/// A space or a tab.
fn is_blank(byte: u8) -> bool
    ensures { result ≡ is_blank byte }
{
    byte == b' ' || byte == b'\t'
}

/// A tab, or 32 to 126.
fn is_line_byte(byte: u8) -> bool
    ensures { result ≡ is_line_byte byte }
{
    byte == b'\t' || (32 <= byte && byte <= 126)
}

/// Whether a line has no other bytes.
pub(crate) fn is_plain(line: &[u8]) -> bool
    ensures { result ≡ list_all is_line_byte line.now }
{
    line.iter().all(|byte| is_line_byte(*byte))
}

/// How many blanks stand at the front.
fn blanks_len(text: &[u8]) -> usize
    ensures len { result ≡ prefix_len is_blank text.now }
    ensures within { result ≤ length text.now }
{
    text.iter().take_while(|byte| is_blank(**byte)).count()
}

/// How many bytes stand before the first blank.
fn token_len(text: &[u8]) -> usize
    ensures len { result ≡ prefix_len is_token_byte text.now }
    ensures within { result ≤ length text.now }
{
    text.iter().take_while(|byte| !is_blank(**byte)).count()
}

/// How many bytes stand before the first line feed.
fn line_len(text: &[u8]) -> usize
    ensures len { result ≡ prefix_len is_no_feed text.now }
    ensures within { result ≤ length text.now }
{
    text.iter().take_while(|byte| **byte != b'\n').count()
}

/// The first line, without its line feed, and what follows it.
#[tactic(auto, using(crate::proofs::LineFronts::fronts))]
pub(crate) fn split_line(text: &[u8]) -> (&[u8], &[u8])
    ensures line { result.0.now ≡ front is_no_feed text.now }
    ensures rest { result.1.now ≡ drop 1 (behind is_no_feed text.now) }
{
    let (line, rest) = text.split_at(line_len(text));
    match rest.split_first() {
        Some((_, next)) => (line, next),
        None => (line, rest),
    }
}

/// The line without one byte 13 at its end.
pub(crate) fn without_return(line: &[u8]) -> &[u8]
    ensures { result.now ≡ without_return line.now }
{
    if !line.is_empty() && line[line.len() - 1] == b'\r' {
        return &line[..line.len() - 1];
    }
    line
}

/// What follows the blanks at the front.
#[tactic(auto, using(crate::proofs::LineFronts::fronts))]
fn after_blanks(text: &[u8]) -> &[u8]
    ensures { result.now ≡ behind is_blank text.now }
{
    let (_, rest) = text.split_at(blanks_len(text));
    rest
}

/// The first token, or nothing where there is none, and what follows it.
#[tactic(auto, using(crate::proofs::LineFronts::fronts))]
pub(crate) fn split_token(line: &[u8]) -> (&[u8], &[u8])
    ensures token { result.0.now ≡ first_token line.now }
    ensures rest { result.1.now ≡ behind_token line.now }
{
    let text = after_blanks(line);
    text.split_at(token_len(text))
}

/// Whether a line of this first token is skipped: there is none, or it begins with `#`.
pub(crate) fn is_remark(token: &[u8]) -> bool
    ensures { result ≡ is_remark token.now }
{
    token.is_empty() || token[0] == b'#'
}
