//! Words of a script.
ghost use Rattle.std.specs.Prelude.{◌≡◌, ◌++◌};
ghost use Rattle.eir_script.specs.Forms.{IsWordFirst};
ghost use Rattle.eir_script.specs.Grammar.{AreWordBytes, StartsApart, is_word_byte, is_word_start};

/// The most bytes of a word.
const WORD_LIMIT: usize = 64;

/// Whether the byte may stand in a word: a letter, a digit, the underscore or the dot.
fn is_word_byte(byte: u8) -> bool
    ensures { result ≡ is_word_byte byte }
{
    // Most bytes of a script are small letters.
    matches!(byte, b'a'..=b'z') || matches!(byte, b'A'..=b'Z' | b'0'..=b'9' | b'_' | b'.')
}

/// Whether the byte may begin a word.
pub fn is_word_start(byte: u8) -> bool
    ensures { result ≡ is_word_start byte }
{
    is_word_byte(byte) && byte != b'.'
}

/// The bytes of words that come first, and what stands behind them.
#[inline(always)]
fn split_word_bytes(bytes: &[u8]) -> (&[u8], &[u8])
    ensures joined { bytes.now ≡ result.0.now ++ result.1.now }
    ensures run { AreWordBytes result.0.now }
    ensures apart { StartsApart result.1.now }
{
    'bytes: for place in 0..bytes.len() {
        if !is_word_byte(bytes[place]) {
            return (&bytes[..place], &bytes[place..]);
        }
    }
    (bytes, &[])
}

/// The bytes of words that come first, which are at most as many as a word may have, and what stands behind them.
#[inline(always)]
pub fn split_word(bytes: &[u8]) -> Option<(&[u8], &[u8])>
    ensures { IsWordFirst bytes.now result }
{
    let (word, rest) = split_word_bytes(bytes);
    if word.len() > WORD_LIMIT {
        None
    } else {
        Some((word, rest))
    }
}
