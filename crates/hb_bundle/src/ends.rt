//! Where a text of a derivation ends.

ghost use Rattle.std.specs.Prelude.{◌<◌, ◌≤◌, length};
ghost use Rattle.hb_bundle.specs.Lines.{IsUpToEnd};

/// How many bytes stand up to the first line `end`, with its line feed; all, where there is no such line.
pub fn up_to_end(bytes: &[u8]) -> usize
    requires { 0 < length bytes.now }
    ensures some { 0 < result }
    ensures within { result ≤ length bytes.now }
    ensures end { IsUpToEnd bytes.now result }
{
    let mut line = 0;
    for i in 0..bytes.len() {
        if bytes[i] == b'\n' {
            if &bytes[line..i] == b"end".as_slice() {
                return i + 1;
            }
            line = i + 1;
        }
    }
    bytes.len()
}
