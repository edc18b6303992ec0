//! What an office is given, and what it answers.
use crate::{AdminCommand, Answer};
use creds::{DepositId, Name};

/// One thing that happens to an office. It has no `Debug`, since it may hold a password or mail.
#[derive(Clone, Copy)]
pub enum Event<'a> {
    /// A client connects. The connection gets the next number, from 1 on.
    Connect,
    /// Octets came from a connection: at most 4,096, in any pieces.
    Bytes(u64, &'a [u8]),
    /// A connection took so many of the octets that `owed` lends it: at least one.
    Took(u64, usize),
    /// A connection is gone: its client closed it, or it broke.
    Gone(u64),
    /// The present moment, in seconds: an earlier one than the last counts as the last. The moment
    /// is 0 after an opening or a restart. Each connection that has done nothing for the idle
    /// seconds is ended, without a reply and with nothing removed.
    Tick(u64),
    /// A message is put into a maildrop, once for each deposit id of the maildrop's name: the
    /// maildrop, the message's class, the deposit's id, and the message's text as it came.
    Deposit(&'a Name, &'a Name, &'a DepositId, &'a [u8]),
    /// An administrator asks for something.
    Admin(&'a AdminCommand),
    /// The office starts again under this number: every connection is ended, with nothing removed,
    /// and the numbers of connections begin at 1 again.
    Restart(u64),
}

/// Why an event is ignored: the first that holds. An ignored event changes nothing.
#[derive(Clone, Copy, PartialEq, Eq)]
pub enum Reason {
    /// No open connection has this number.
    NoSuchConnection,
    /// Octets came while some are still owed; or none were taken, or more than are lent.
    NotReady,
    /// A piece of more than 4,096 octets.
    PieceTooLong,
    /// 64 connections are open, or no number is left.
    TooManyConnections,
}

/// What an event is answered.
#[derive(Drop)]
pub enum Outcome {
    /// A connection was opened under this number, and is owed its greeting.
    Opened(u64),
    Done,
    /// The store refused. Of a line its reply says so; of a deposit or a command no record changed.
    Failed,
    /// Want of memory. If it came while a connection's line or taking was done, that connection
    /// is ended as by [`Event::Gone`]; else nothing changed.
    NoMemory,
    Ignored(Reason),
    /// What a deposit or a command is answered.
    Answered(Answer),
}
