//! A script over a store, as a job.
use crate::Job;
use converse::Printer;
use converse::replay::replay;
use session::Removals;
use std::alloc::Global;
use std::io::{Read, Write};
use vault::Vault;

/// Does the events of a script, and prints what each gives, as `replay` of `converse` does.
#[derive(Drop)]
pub struct Replaying<'a, R, W, E> {
    /// Where the script and what is read of it lie.
    pub alloc: Global,
    /// The script.
    pub script: R,
    /// The host name that greetings have.
    pub host: &'a str,
    /// The boot number that they have.
    pub boot: u64,
    /// When a denied removal is refused.
    pub removals: Removals,
    /// What the events give is printed to it.
    pub out: W,
    /// A fault is printed on it.
    pub err: E,
}

/// What is left of the run of a script.
#[derive(Drop)]
pub struct Replayed<R, W> {
    /// The exit status, 0 or 1.
    pub status: u8,
    /// The script, as far as it wasn't read.
    pub script: R,
    /// What the events gave was printed to it.
    pub out: W,
}

impl<R: Read, W: Printer, E: Write + Drop> Job for Replaying<'_, R, W, E> {
    ghost use Rattle.std.specs.Prelude.{⊤};
    ghost use Rattle.converse.specs.Runs.{opened_on};
    ghost use Rattle.jobs.specs.Commands.{HasReplayed};

    type Answer = Replayed<R, W>;

    ghost tells = { λ _. ⊤ };

    ghost does = { λ job T U first last it. HasReplayed (R.remaining job.script)
        (W.contents job.out) (W.contents it.out) (W.flushed it.out) it.status first last T
        (opened_on T job.host.now job.boot job.removals) U };

    fn run<V: Vault>(self, vault: V) -> (Replayed<R, W>, V) {
        let Replaying {
            alloc,
            script,
            host,
            boot,
            removals,
            out,
            err,
        } = self;
        let (mut script, mut out, mut err) = (script, out, err);
        let (status, vault) = replay(
            alloc,
            &mut script,
            vault,
            host,
            boot,
            removals,
            &mut out,
            &mut err,
        );
        let left = Replayed {
            status,
            script,
            out,
        };
        (left, vault)
    }
}
