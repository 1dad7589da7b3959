//! The tests of a good name and of a good path.
ghost use Rattle.std.specs.Prelude.{◌≡◌};
ghost use Rattle.std.specs.List.{list_all};
ghost use Rattle.host_words.specs.Spelling.{is_name, is_name_letter, is_path, is_path_letter};

fn is_name_letter(byte: u8) -> bool
    ensures { result ≡ is_name_letter byte }
{
    matches!(byte, b'A'..=b'Z' | b'a'..=b'z' | b'0'..=b'9' | b'_' | b'.' | b'-')
}

fn are_name_letters(bytes: &[u8]) -> bool
    ensures { result ≡ list_all is_name_letter bytes.now }
{
    bytes.iter().all(|byte| is_name_letter(*byte))
}

fn is_path_letter(byte: u8) -> bool
    ensures { result ≡ is_path_letter byte }
{
    is_name_letter(byte) || byte == b'/'
}

fn are_path_letters(bytes: &[u8]) -> bool
    ensures { result ≡ list_all is_path_letter bytes.now }
{
    bytes.iter().all(|byte| is_path_letter(*byte))
}

/// Whether the bytes are a good name of a map, a mark or a device: 1 to 15 of `A-Z a-z 0-9 _ . -`.
#[tactic(auto, unfolding(crate::specs::Spelling::is_name))]
pub fn is_name(bytes: &[u8]) -> bool
    ensures { result ≡ is_name bytes.now }
{
    matches!(bytes.len(), 1..=15) && are_name_letters(bytes)
}

/// Whether the bytes are a good path of a pin: 2 to 255 bytes, `/` first, and then name letters and `/`.
#[tactic(auto, unfolding(crate::specs::Spelling::is_path))]
pub fn is_path(bytes: &[u8]) -> bool
    ensures { result ≡ is_path bytes.now }
{
    matches!(bytes.len(), 2..=255) && bytes.starts_with(b"/") && are_path_letters(bytes)
}
