//! Texts cut into names, single bytes and spaces, from the front on.
ghost use Rattle.sn_names.specs.FirstFault.{IsFirstFault};
ghost use Rattle.sn_names.specs.NameText.{IsName, is_name_byte};
ghost use Rattle.sn_names.specs.Parts.Part.{Byte, Spaces};
ghost use Rattle.sn_names.specs.Parts.{Part, is_space, left, name_parts, starts};
ghost use Rattle.std.specs.List.{list_all};
ghost use Rattle.std.specs.Prelude.{false, IfNone, IfSome, List, Some, [], drop, length, replicate, take, true, ℕ, ◌++◌, ◌-◌, ◌<◌, ◌∷◌, ◌≡◌, ◌≤◌};

/// The most bytes that a name has, so that a line of a scenario has room for the four of a link.
const MOST_BYTES: usize = 64;

/// A letter, a digit or `_`.
fn may_name(byte: u8) -> bool
    ensures { result ≡ is_name_byte byte }
{
    byte.is_ascii_alphanumeric() || byte == b'_'
}

/// How many bytes at the front may be a name's, and at most 64.
fn name_len(text: &[u8]) -> usize
    ensures within { result ≤ length text.now }
    ensures short { result ≤ 64 }
    ensures plain { list_all is_name_byte (take result text.now) ≡ true }
    ensures longest { result < 64 → starts is_name_byte (drop result text.now) ≡ false }
{
    let mut len = 0;
    while len < text.len() && len < MOST_BYTES && may_name(text[len]) {
        len += 1;
    }
    len
}

/// The longest name at the front, or no byte where there is none, and what follows it.
pub fn split_name(text: &[u8]) -> (&[u8], &[u8])
    ensures parts { text.now ≡ result.0.now ++ result.1.now }
    ensures short { length result.0.now ≤ 64 }
    ensures plain { list_all is_name_byte result.0.now ≡ true }
    ensures name { 0 < length result.0.now → (parts : List Part) → left (name_parts parts) text.now ≡ left parts result.1.now }
    ensures none { length result.0.now ≡ 0 → (parts : List Part) → left (name_parts parts) text.now ≡ Some (length text.now) }
{
    text.split_at(name_len(text))
}

/// What follows this byte at the front of the text.
pub fn split_byte(text: &[u8], byte: u8) -> Option<&[u8]>
    ensures found { IfSome result (λ rest. text.now ≡ byte ∷ rest.now) }
    ensures goes_on { IfSome result (λ rest. (parts : List Part) → left (Byte byte ∷ parts) text.now ≡ left parts rest.now) }
    ensures none { IfNone result ((parts : List Part) → left (Byte byte ∷ parts) text.now ≡ Some (length text.now)) }
{
    let (first, rest) = text.split_first()?;
    if *first != byte {
        return None;
    }
    Some(rest)
}

/// How many spaces stand at the front.
fn spaces_len(text: &[u8]) -> usize
    ensures within { result ≤ length text.now }
    ensures spaces { take result text.now ≡ replicate result 32 }
    ensures longest { starts is_space (drop result text.now) ≡ false }
{
    let mut len = 0;
    while len < text.len() && text[len] == b' ' {
        len += 1;
    }
    len
}

/// What follows the spaces at the front of the text.
pub fn after_spaces(text: &[u8]) -> &[u8]
    ensures spaces { text.now ≡ replicate (length text.now - length result.now) 32 ++ result.now }
    ensures shorter { length result.now ≤ length text.now }
    ensures goes_on { (parts : List Part) → left (Spaces ∷ parts) text.now ≡ left parts result.now }
{
    &text[spaces_len(text)..]
}

/// Where a text is no name: the length of its longest prefix that some name begins with.
pub fn name_fault(text: &[u8]) -> Option<usize>
    ensures name { IfNone result (IsName text.now) }
    ensures fault { IfSome result (λ at. IsFirstFault IsName text.now at) }
{
    let (name, rest) = split_name(text);
    if name.is_empty() {
        return Some(0);
    }
    if rest.is_empty() {
        return None;
    }
    Some(name.len())
}
