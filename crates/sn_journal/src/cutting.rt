//! A text cut at a byte.
ghost use Rattle.sn_journal.specs.Cutting.{behind, front, is_no_feed, is_no_space};
ghost use Rattle.sn_names.specs.Parts.{starts};
ghost use Rattle.std.specs.List.{prefix_len};
ghost use Rattle.std.specs.Prelude.{IfNone, IfSome, false, length, ◌++◌, ◌≡◌, ◌≤◌, ◌∷◌};

/// How many bytes stand before the first line feed.
fn line_len(text: &[u8]) -> usize
    ensures len { result ≡ prefix_len is_no_feed text.now }
    ensures within { result ≤ length text.now }
{
    text.iter().take_while(|byte| **byte != b'\n').count()
}

/// How many bytes stand before the first space.
fn word_len(text: &[u8]) -> usize
    ensures len { result ≡ prefix_len is_no_space text.now }
    ensures within { result ≤ length text.now }
{
    text.iter().take_while(|byte| **byte != b' ').count()
}

/// The first line, without its line feed, and what follows it. None where no line is ended.
#[tactic(auto, using(crate::proofs::Fronts::fronts))]
pub(crate) fn split_line(text: &[u8]) -> Option<(&[u8], &[u8])>
    ensures line { IfSome result (λ p. p.0.now ≡ front is_no_feed text.now) }
    ensures parts { IfSome result (λ p. text.now ≡ p.0.now ++ 10 ∷ p.1.now) }
    ensures none { IfNone result (length (behind is_no_feed text.now) ≡ 0) }
{
    let (line, rest) = text.split_at(line_len(text));
    match rest.split_first() {
        Some((_, next)) => Some((line, next)),
        None => None,
    }
}

/// What stands before the first space, and the rest from it on.
#[tactic(auto, using(crate::proofs::Fronts::fronts))]
pub(crate) fn split_word(text: &[u8]) -> (&[u8], &[u8])
    ensures word { result.0.now ≡ front is_no_space text.now }
    ensures rest { result.1.now ≡ behind is_no_space text.now }
    ensures parts { text.now ≡ result.0.now ++ result.1.now }
    ensures stop { starts is_no_space result.1.now ≡ false }
    ensures within { length result.1.now ≤ length text.now }
{
    text.split_at(word_len(text))
}
