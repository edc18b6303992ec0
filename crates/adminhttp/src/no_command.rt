//! Why a request gives no command.

use crate::refusal::Refusal;
use matchit::InsertError;
use policy::PolicyFault;

/// Why a request gives no command.
#[derive(Clone, Copy, PartialEq, Eq)]
pub enum NoCommand {
    /// More octets are to come.
    More,
    /// The request is refused.
    Bad(Refusal),
    /// The body is no policy, for this cause (never want of memory).
    BadPolicy(PolicyFault),
    /// Memory ran out.
    NoMemory,
}

impl From<InsertError> for NoCommand {
    ghost use Rattle.std.specs.Prelude.{◌≡◌};
    ghost use Rattle.adminhttp.specs.declared.no_command.NoCommand.TheVariants.{NoMemory};

    ghost from_gives = { λ _ stop. stop ≡ NoMemory };

    fn from(_: InsertError) -> NoCommand {
        NoCommand::NoMemory
    }
}
