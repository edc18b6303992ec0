//! One conversation over a store, as a job.
use crate::Job;
use converse::talk_over_store::talk_over_store;
use converse::{Sink, Source};
use session::Removals;
use std::alloc::Global;
use std::io::Write;
use vault::Vault;

/// Has one conversation with a client, as `talk_over_store` of `converse` does.
#[derive(Drop)]
pub struct Talking<'a, R, W, E> {
    /// Where what is kept of the conversation lies.
    pub alloc: Global,
    /// It gives the client's octets.
    pub reader: R,
    /// It takes the replies.
    pub writer: W,
    /// The host name that the greeting has.
    pub host: &'a str,
    /// The boot number that it has.
    pub boot: u64,
    /// When a denied removal is refused.
    pub removals: Removals,
    /// A fault is printed on it.
    pub err: E,
}

/// What is left of a conversation.
#[derive(Drop)]
pub struct Talked<R, W> {
    /// The exit status, 0 or 1.
    pub status: u8,
    /// It gave the client's octets.
    pub reader: R,
    /// It took the replies.
    pub writer: W,
}

impl<R: Source, W: Sink, E: Write + Drop> Job for Talking<'_, R, W, E> {
    ghost use Rattle.std.specs.Prelude.{⊤};
    ghost use Rattle.converse.specs.Runs.{opened_on};
    ghost use Rattle.jobs.specs.Commands.{HasConversed};

    type Answer = Talked<R, W>;

    ghost tells = { λ _. ⊤ };

    ghost does = { λ job T U first last it. HasConversed (R.seen job.reader) (R.seen it.reader)
        (W.seen job.writer) (W.seen it.writer) it.status first last T
        (opened_on T job.host.now job.boot job.removals) U };

    fn run<V: Vault>(self, vault: V) -> (Talked<R, W>, V) {
        let Talking {
            alloc,
            reader,
            writer,
            host,
            boot,
            removals,
            err,
        } = self;
        let (mut reader, mut writer, mut err) = (reader, writer, err);
        let (status, vault) = talk_over_store(
            alloc,
            vault,
            host,
            boot,
            removals,
            &mut reader,
            &mut writer,
            &mut err,
        );
        let left = Talked {
            status,
            reader,
            writer,
        };
        (left, vault)
    }
}
