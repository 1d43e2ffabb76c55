//! The keys of a target whose value is any text.

pub mod laws;

/// A key of a target whose value is any text.
#[derive(Clone, Copy, Debug, PartialEq, Eq)]
pub enum TextKey {
    /// `target_abi`
    Abi,
    /// `target_arch`
    Arch,
    /// `target_env`
    Env,
    /// `target_family`, which `unix` and `windows` ask for too
    Family,
    /// `target_os`
    Os,
    /// `panic`
    Panic,
    /// `target_vendor`
    Vendor,
}

impl TextKey {
    ghost use Rattle.std.specs.Prelude.{◌≡◌, option_map};
    ghost use Rattle.cfgx_fields.specs.TextKey.{key_name, text_if_missing};

    /// Returns the name of the key.
    pub fn name(self) -> &'static str
        ensures { result.now ≡ key_name self }
    {
        match self {
            TextKey::Abi => "target_abi",
            TextKey::Arch => "target_arch",
            TextKey::Env => "target_env",
            TextKey::Family => "target_family",
            TextKey::Os => "target_os",
            TextKey::Panic => "panic",
            TextKey::Vendor => "target_vendor",
        }
    }

    /// Returns the text of a target without this key, if a target may be without it.
    pub fn text_if_missing(self) -> Option<&'static str>
        ensures { option_map (λ text. text.now) result ≡ text_if_missing self }
    {
        match self {
            TextKey::Abi | TextKey::Env => Some(""),
            TextKey::Os => Some("none"),
            TextKey::Vendor => Some("unknown"),
            TextKey::Arch | TextKey::Family | TextKey::Panic => None,
        }
    }
}
