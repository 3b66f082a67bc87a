// A call sign's slots: those that its name takes.
ghost use Rattle.std.specs.Prelude.{◌≡◌, take};

// The slots of a name up to its count; all where the count is too large.
pub fn name_part(s: &[u8], length: usize) -> &[u8]
    ensures { result.now ≡ take length s.now }
{
    if length <= s.len() { &s[..length] } else { s }
}
