ghost use Rattle.std.specs.Prelude.{◌≡◌, ◌<◌, ◌≤◌, ◌+◌, ◌^◌, length};
ghost use Rattle.hb_lex.specs.Place.{column_at, line_at};

/// The line and the column of the byte with this number, both from 1. The column counts bytes.
/// It reads all bytes before.
pub fn place_of(bytes: &[u8], at: u32) -> (u32, u32)
    requires fits { length bytes.now + 1 < 2 ^ 32 }
    requires within { at ≤ length bytes.now }
    ensures line { result.0 ≡ line_at bytes.now at }
    ensures column { result.1 ≡ column_at bytes.now at }
{
    place_behind(bytes, 0, (1, 1), at)
}

/// The place of the byte `to`, where `place` is that of the byte `from`, which is no later one.
/// It reads the bytes between alone, so that the places of all tokens in order take one walk.
pub fn place_behind(bytes: &[u8], from: u32, place: (u32, u32), to: u32) -> (u32, u32)
    requires fits { length bytes.now + 1 < 2 ^ 32 }
    requires order { from ≤ to }
    requires within { to ≤ length bytes.now }
    requires line { place.0 ≡ line_at bytes.now from }
    requires column { place.1 ≡ column_at bytes.now from }
    ensures line { result.0 ≡ line_at bytes.now to }
    ensures column { result.1 ≡ column_at bytes.now to }
{
    let (mut line, mut column) = place;
    for b in &bytes[from as usize..to as usize] {
        if *b == b'\n' {
            line += 1;
            column = 1;
        } else {
            column += 1;
        }
    }
    (line, column)
}
