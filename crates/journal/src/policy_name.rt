//! The name of a policy.
ghost use Rattle.std.specs.Prelude.{◌≡◌, IfOk, Some, true, option_map, string_bytes};
ghost use Rattle.journal.specs.PolicyNames.{name_of, policy_value};

use creds::text_digest;
use policy::Policy;
use std::alloc::{AllocError, Global};

/// How many octets of the digest a name has, each as two digits.
const OCTETS: usize = 8;

/// The name of a policy: the first 16 hexadecimal digits of the SHA-256 of its written form. Its
/// error is want of memory.
pub fn policy_name(alloc: Global, policy: &Policy) -> Result<String, AllocError>
    ensures { IfOk result (λ name. string_bytes name ≡ name_of policy.now) }
{
    let mut text = Vec::new(alloc);
    policy.write(&mut text)?;
    let digest = text_digest(text.as_slice());
    hex::encode(alloc, &digest[..OCTETS])
}

/// The name of the policy in force as a value of a line, if the line is to have it and it is known.
pub fn policy_text(
    alloc: Global,
    is_told: bool,
    name: &Option<String>,
) -> Result<String, AllocError>
    ensures { IfOk result (λ text. string_bytes text
        ≡ policy_value is_told (option_map string_bytes name.now)) }
{
    match name {
        Some(name) if is_told => named_text(alloc, name.as_str()),
        _ => Ok(String::new(alloc)),
    }
}

/// The value of this name.
fn named_text(alloc: Global, name: &str) -> Result<String, AllocError>
    ensures { IfOk result (λ text. string_bytes text ≡ policy_value true (Some name.now)) }
{
    let text = format!(in alloc; " policy={name}")?;
    Ok(text)
}
