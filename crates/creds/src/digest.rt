//! The digests of secrets, passwords and texts.
ghost use Rattle.std.specs.Prelude.{◌≡◌};
ghost use Rattle.creds.specs.Digests.{apop_digest, pass_digest, text_digest};

use crate::name::Name;
use md5::Md5;
use sha2::Sha256;

/// The digest that an APOP line shows (RFC 1939, 7): MD5 (RFC 1321) of the greeting's timestamp and
/// the secret.
pub fn apop_digest(stamp: &[u8], secret: &[u8]) -> [u8; 16]
    ensures { result ≡ apop_digest stamp.now secret.now }
{
    use md5::Digest;
    let mut hasher = Md5::new();
    hasher.update(stamp);
    hasher.update(secret);
    hasher.finalize()
}

/// The digest that is kept of a password: SHA-256 (FIPS 180-4, 6.2) of the clerk's name, `:` and
/// the password.
pub fn pass_digest(name: &Name, password: &[u8]) -> [u8; 32]
    ensures { result ≡ pass_digest name.now password.now }
{
    use sha2::Digest;
    let mut hasher = Sha256::new();
    hasher.update(name.as_bytes());
    hasher.update(b":");
    hasher.update(password);
    hasher.finalize()
}

/// The digest by which a deposit's text is known again: SHA-256 (FIPS 180-4, 6.2).
pub fn text_digest(text: &[u8]) -> [u8; 32]
    ensures { result ≡ text_digest text.now }
{
    use sha2::Digest;
    Sha256::digest(text)
}
