//! What a mail store keeps (clerks, maildrops, messages, deposits and the policy), its sixteen
//! calls (the trait `Vault`), and a store in memory.
#![tactic(auto)]

mod answer;
mod clerks;
mod deposits;
mod fault;
mod lists;
mod mail;
mod message_key;
mod plain;
mod record;
mod refusing;
mod sheets;
mod vault;

pub use answer::{ClerkKind, CredentialKind, Deposited, Head, Progress, Total};
pub use clerks::{MAX_CLERKS, clerk_kinds};
pub use deposits::{MAX_DEPOSITS, MAX_MESSAGES};
pub use fault::VaultFault;
pub use lists::{MAX_MAILDROPS, in_order};
pub use message_key::MessageKey;
pub use plain::PlainVault;
pub use record::{Clerk, Keyed, Message, Receipt};
pub use refusing::Refusing;
pub use sheets::SheetText;
pub use vault::Vault;
