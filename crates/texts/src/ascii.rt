// Bytes below 128 as text.
ghost use Rattle.std.specs.Prelude.{◌≡◌, IsAscii};

// The text of ASCII bytes.
pub fn as_str(bytes: &[u8]) -> &str
    requires { IsAscii bytes.now }
    ensures { result.now ≡ bytes.now }
{
    // ASCII is UTF-8
    std::str::from_utf8(bytes).unwrap()
}
