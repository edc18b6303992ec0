//! Credentials of clerks, and what a client shows for one.
use crate::digest::{apop_digest, pass_digest};
use crate::name::Name;
use crate::secret::Secret;

/// What is kept of a clerk, who has one kind of credential. It has no `Debug`, so that no digest of
/// a password is shown by accident.
#[derive(Clone, Copy, PartialEq, Eq)]
pub enum Credential {
    /// The secret shared with a clerk who logs in by APOP.
    Apop(Secret),
    /// The digest, as by `pass_digest`, of the password of a clerk who logs in by USER and PASS.
    Pass([u8; 32]),
}

/// What a client shows.
#[derive(Clone, Copy, PartialEq, Eq)]
pub enum Proof<'a> {
    /// The digest of an APOP line.
    Apop([u8; 16]),
    /// The password of a PASS line.
    Pass(&'a [u8]),
}

impl Credential {
    ghost use Rattle.std.specs.Prelude.{◌≡◌};
    ghost use Rattle.creds.specs.Credential.{admits, shown};

    /// Whether a proof admits the clerk `name` of this credential, on a connection that was greeted
    /// with the timestamp `stamp`: the two are of one kind, and their digests are equal.
    pub fn admits(&self, name: &Name, stamp: &[u8], proof: &Proof<'_>) -> bool
        ensures { result ≡ admits self.now name.now stamp.now (shown proof.now) }
    {
        match (self, proof) {
            (Credential::Apop(secret), Proof::Apop(digest)) => {
                apop_digest(stamp, secret.as_bytes()) == *digest
            }
            (Credential::Pass(digest), Proof::Pass(password)) => {
                pass_digest(name, password) == *digest
            }
            _ => false,
        }
    }
}
