//! How claims are spelled.

/// The spelling of a claim's lines.
#[derive(Clone, Copy, Debug, PartialEq, Eq)]
pub enum Spelling {
    /// As claims are that show each win to its end.
    Ordinary,
    /// As short claims are: their first line has other words and no version, and a tree may end with the line `alive`, which is the
    /// use of lemma 0.
    Short,
}
