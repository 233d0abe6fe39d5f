//! Gaps between tokens, and blank lines.
ghost use Rattle.std.specs.Prelude.{◌≡◌, ◌++◌, ℕ, List};
ghost use Rattle.eir_script.specs.Grammar.{is_gap};
ghost use Rattle.eir_script.specs.Forms.{SkipsGaps};
ghost use Rattle.eir_script.specs.Reading.{is_blank};

/// Whether the byte is a space or a tab.
fn is_gap(byte: u8) -> bool
    ensures { result ≡ is_gap byte }
{
    matches!(byte, b' ' | b'\t')
}

/// What stands behind the gaps that come first.
#[inline(always)]
pub fn after_gaps(bytes: &[u8]) -> &[u8]
    ensures { SkipsGaps bytes.now result.now }
{
    for (place, byte) in bytes.iter().enumerate() {
        if !is_gap(*byte) {
            return &bytes[place..];
        }
    }
    &[]
}

/// Whether the line has gaps alone, or gaps and a comment.
pub fn is_blank(line: &[u8]) -> bool
    ensures { result ≡ is_blank line.now }
{
    match after_gaps(line) {
        [] => true,
        [first, ..] => *first == b'#',
    }
}
