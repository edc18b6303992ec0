//! Whom and what a review speaks of.
ghost use Rattle.std.specs.Prelude.{◌≡◌, ◌++◌, OnOk, Some};
ghost use Rattle.review.specs.Differences.{label_text};

use creds::Name;
use std::alloc::AllocError;
use std::fmt;

/// A clerk, a maildrop or a class that a review speaks of. It is printed as its name, or as
/// `(others)`.
#[derive(Clone, Copy, PartialEq, Eq)]
pub enum Label {
    /// The one of this name.
    Named(Name),
    /// Every one that is named nowhere.
    Others,
}

impl fmt::Display for Label {
    ghost output = { λ label. Some (label_text label) };

    fn fmt<W: fmt::Write>(&self, f: &mut fmt::Formatter<W>) -> fmt::Result {
        match self {
            Label::Named(name) => f.write_str(name.as_str()),
            Label::Others => f.write_str("(others)"),
        }
    }
}

/// The octets of what a label is printed as.
pub(crate) fn label_bytes(label: &Label) -> &[u8]
    ensures { result.now ≡ label_text label.now }
{
    match label {
        Label::Named(name) => name.as_bytes(),
        Label::Others => b"(others)",
    }
}

pub(crate) fn put(out: &mut Vec<u8>, octets: &[u8]) -> Result<(), AllocError>
    ensures { OnOk result (out.new.items ≡ out.old.items ++ octets.now) }
{
    out.extend_from_slice(octets)
}
