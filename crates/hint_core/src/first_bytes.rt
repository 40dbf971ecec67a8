//! What an input begins with.
ghost use Rattle.std.specs.Prelude.{◌≡◌};
ghost use Rattle.hint_core.specs.Sessions.{is_space, is_blank, begins_object, is_marked};

/// Whether the byte is white space in JSON.
fn is_space(byte: u8) -> bool
    ensures { result ≡ is_space byte }
{
    byte == b' ' || byte == b'\t' || byte == b'\n' || byte == b'\r'
}

/// Whether all bytes are white space.
pub(crate) fn is_blank(bytes: &[u8]) -> bool
    ensures { result ≡ is_blank bytes.now }
{
    // form: the proof goes along the loop
    for byte in bytes {
        if !is_space(*byte) {
            return false;
        }
    }
    true
}

/// Whether the first byte that isn't white space is `{`.
pub fn begins_object(bytes: &[u8]) -> bool
    ensures { result ≡ begins_object bytes.now }
{
    for byte in bytes {
        if !is_space(*byte) {
            return *byte == b'{';
        }
    }
    false
}

/// Whether the bytes begin with the byte order mark of UTF-8.
pub(crate) fn is_marked(bytes: &[u8]) -> bool
    ensures { result ≡ is_marked bytes.now }
{
    match bytes {
        [a, b, c, ..] => *a == 0xef && *b == 0xbb && *c == 0xbf,
        _ => false,
    }
}
