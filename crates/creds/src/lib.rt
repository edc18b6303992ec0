//! Names, deposit ids, secrets and unique-ids, each held in place, and the credentials by which
//! clerks log in.
#![tactic(auto)]

mod credential;
mod deposit_id;
mod digest;
mod host_name;
mod login_name;
mod name;
mod secret;
mod text;
mod uid;

pub use credential::{Credential, Proof};
pub use deposit_id::DepositId;
pub use digest::{apop_digest, pass_digest, text_digest};
pub use host_name::HostName;
pub use login_name::LoginName;
pub use name::Name;
pub use secret::Secret;
pub use uid::Uid;
