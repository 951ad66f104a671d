//! What a line gets.

/// What a raw line gets.
#[derive(Debug, Drop)]
pub enum Fed {
    /// The line asks for nothing.
    Nothing,
    /// The bytes of the reply, with the two line feeds that end it.
    Reply(Vec<u8>),
    /// The bytes of the last reply. The session ends.
    Quit(Vec<u8>),
}
