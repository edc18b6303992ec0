//! What a review is about.
use creds::Name;

/// How a review is written.
#[derive(Clone, Copy, PartialEq, Eq)]
pub enum Format {
    /// For a reader.
    Text,
    /// As CSV (RFC 4180, with LF at the end of a line).
    Csv,
    /// As one page of HTML, which has no script and asks nothing of anybody.
    Html,
    /// As JSON (RFC 8259).
    Json,
}

/// What a review is about, and how it is written.
#[derive(Clone, Copy, PartialEq, Eq)]
pub struct Choice {
    /// This clerk alone; none: each that is named, and all others.
    pub clerk: Option<Name>,
    /// This maildrop alone; none: each that is named, and all others.
    pub maildrop: Option<Name>,
    /// How it is written.
    pub format: Format,
    /// Who may do what is left out.
    pub only_changes: bool,
}
