//! Which bytes begin, continue, end and part lexemes.
ghost use Rattle.std.specs.Prelude.{◌≡◌};
ghost use Rattle.sync_lex.specs.Bytes.{is_blank, begins_name, continues_name, ends_in_digit};

#[tactic(auto, unfolding(crate::specs::Bytes::is_blank))]
pub(crate) fn is_blank(byte: u8) -> bool
    ensures { result ≡ is_blank byte }
{
    byte == b' ' || byte == b'\t' || byte == b'\r' || byte == b'\n'
}

#[tactic(auto, unfolding(crate::specs::Bytes::begins_name))]
pub(crate) fn begins_name(byte: u8) -> bool
    ensures { result ≡ begins_name byte }
{
    byte.is_ascii_alphabetic() || byte == b'_'
}

#[tactic(auto, unfolding(crate::specs::Bytes::continues_name))]
pub(crate) fn continues_name(byte: u8) -> bool
    ensures { result ≡ continues_name byte }
{
    byte.is_ascii_alphanumeric() || byte == b'_'
}

/// Whether the last byte is a digit: no sign, reserved word or strategy ends so.
pub(crate) fn ends_in_digit(bytes: &[u8]) -> bool
    ensures { result ≡ ends_in_digit bytes.now }
{
    match bytes {
        [.., last] => last.is_ascii_digit(),
        [] => false,
    }
}
