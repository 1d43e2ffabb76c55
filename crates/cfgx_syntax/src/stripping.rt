//! The condition of a text with or without an outer `cfg( )`.
ghost use Rattle.std.specs.Prelude.{◌≡◌};
ghost use Rattle.cfgx_syntax.specs.Stripping.{StandsBehind, strip, strip_offset};

/// A text without its outer `cfg( )`.
#[derive(Clone, Copy, Debug)]
pub struct Stripped<'a> {
    /// What is left of the text
    pub text: &'a str,
    /// The number of bytes that were taken off in front of it
    pub offset: usize,
}

/// Returns the text between `cfg(` and `)` if `text` starts and ends with them, else `text`. Only
/// one pair is removed.
pub fn strip(text: &str) -> Stripped<'_>
    ensures text { result.text.now ≡ strip text.now }
    ensures offset { result.offset ≡ strip_offset text.now }
    ensures stands { StandsBehind text.now result.offset result.text.now }
{
    let whole = Stripped { text, offset: 0 };
    let Some(inner) = text.strip_prefix("cfg(") else {
        return whole;
    };
    match inner.strip_suffix(")") {
        Some(kept) => Stripped {
            text: kept,
            offset: 4,
        },
        None => whole,
    }
}
