//! The versions of claims.

ghost use Rattle.std.specs.Prelude.{◌≡◌};
ghost use Rattle.proof_cert.specs.Stage.{version_number};

/// The version of a claim's text. In a claim of version 2 a lemma may say which colourings must have occurred.
#[derive(Clone, Copy, Debug, PartialEq, Eq)]
pub enum Version {
    One,
    Two,
}

impl Version {
    /// The number of the version in the text.
    pub(crate) fn number(self) -> usize
        ensures { result ≡ version_number self }
    {
        match self {
            Version::One => 1,
            Version::Two => 2,
        }
    }
}
