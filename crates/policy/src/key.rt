//! What rules are looked up by.
use crate::rule::{Clerks, Pattern};

/// The clerks and the maildrop as a rule names them: `*` differs from every name, and a group from
/// the clerk of the same name.
#[derive(Clone, Copy, PartialEq, Eq, PartialOrd, Ord)]
pub(crate) struct Key {
    pub(crate) clerk: Clerks,
    pub(crate) maildrop: Pattern,
}
