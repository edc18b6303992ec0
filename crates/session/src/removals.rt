//! When an office's removals are judged.

/// When the policy judges removals (RFC 1939, 5: DELE; 6: what QUIT removes). In either mode a
/// QUIT removes only what the policy in force at the QUIT allows.
#[derive(Clone, Copy, PartialEq, Eq, Debug)]
pub enum Removals {
    /// A DELE that the policy denies is refused with the rule's name, and nothing is marked.
    JudgedAtDele,
    /// A DELE marks whatever message it names; the QUIT keeps those whose removal the policy
    /// denies, and names the rule.
    JudgedAtQuit,
}
