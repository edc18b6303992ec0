//! The account of an event: what the office judged in it.
ghost use Rattle.std.specs.Prelude.{◌≡◌, ℕ, List, Option, None};
ghost use Rattle.popline.specs.Seen.{command_seen, reply_seen};
ghost use Rattle.policy.specs.Policy.{Policy};
ghost use Rattle.session.specs.Session.{IsPlan};
ghost use Rattle.office.specs.History.{Says};
ghost use Rattle.office.specs.Connections.{reading};
ghost use Rattle.office.specs.Accounts.{verdict as verdict_of, accepted_by, login_told};
ghost use Rattle.office.specs.Accounts.{done_told, denial_told, message_told, sending_told};
ghost use Rattle.office.specs.Accounts.{reset_told, told_if_done, reported, taken_told};
ghost use Rattle.office.specs.Accounts.{command_account, fault_told, line_account};
ghost use Rattle.office.specs.Accounts.{removal_told, was_done as was_done_so};

use crate::answer::MessageRow;
use crate::command_line::CommandLine;
use crate::login_state::LineOutcome;
use crate::{Outcome, Reason};
use creds::{LoginName, Name, Uid};
use popline::{Command, Keyword, LineFault, Reply};
use session::{Pick, QuitPlan, Readable, Removed, Session};
use std::alloc::AllocError;

/// By which command a login gives its credential (RFC 1939, 7).
#[derive(Clone, Copy)]
pub enum Way {
    Pass,
    Apop,
}

/// How a login was judged: that it was accepted, or the first check that it didn't pass.
#[derive(Clone, Copy)]
pub enum Verdict {
    /// The clerk was let in: the rule's name.
    Accepted(Name),
    /// There is no such clerk, the password or digest is wrong, or the clerk's credential is of the
    /// other kind.
    WrongCredential,
    /// The same for the third time on this connection, which ends it.
    ThirdWrongCredential,
    /// The policy doesn't let the clerk open the maildrop: the rule's name.
    Denied(Name),
    NoSuchMaildrop,
    /// Another session holds the maildrop.
    InUse,
    /// The store failed, and the login was refused.
    StoreFailed,
}

/// What a session's QUIT removed.
#[derive(Drop)]
pub struct Removal {
    /// Whose session it was, in which maildrop.
    pub name: LoginName,
    /// How many messages were marked.
    pub marked: usize,
    /// The marked messages that the policy let the clerk remove, each with the rule that let it.
    pub removed: Removed,
    /// The rule that kept the lowest numbered of the other marked messages, if one did.
    pub denied: Option<Name>,
    /// Whether they were removed: all of them; or none, if the store failed.
    pub is_done: bool,
}

/// Why an event ended a connection, if no line did.
#[derive(Clone, Copy)]
pub enum End {
    /// The client went, or was sent away.
    Gone,
    /// Memory was wanting for more of what the connection was owed.
    NoMemory,
    /// Memory was wanting for a line; all that was owed before it is taken.
    NoMemoryForLine,
    /// The store refused a page of the message that was sent.
    StoreFailed,
    /// An administrator ended the session.
    SessionEnded,
    /// Nothing came for so long that a tick ended it. A tick may end many connections, so the
    /// office's own account of it names none: who gave it says each.
    Idle,
    /// It took too long to log in, by the seconds of who serves it; to the office it is gone.
    TooLate,
    /// The same by the fewer seconds that whoever serves it gives while all its places are taken.
    FullHouse,
}

/// A command that names a message by its number, and that a rule may deny (RFC 1939, 5 and 7).
#[derive(Clone, Copy, PartialEq, Eq)]
pub enum MessageCommand {
    Dele,
    Retr,
    Top,
}

/// What an office judged in an event. It takes no memory but that of a QUIT's plan, and holds no
/// password and no digest.
#[derive(Drop)]
pub enum Account {
    /// Nothing of what follows.
    Nothing,
    /// A login was judged: under which name, by which command, and how.
    Login(LoginName, Way, Verdict),
    /// USER or APOP came before a login with arguments that aren't of their form: nobody was named,
    /// and nothing was judged.
    NoName,
    /// A session's DELE marked a message.
    Marked,
    /// A session's RSET took all its marks away.
    Unmarked,
    /// A session's RETR began to send this message, which the rule of this name lets the clerk
    /// read.
    Retrieved(MessageRow, Name),
    /// A session's TOP began to send the top of this message, by the rule of this name. The octets
    /// are those of the whole message, of which TOP may send few.
    Topped(MessageRow, Name),
    /// A rule denied a session's command for the message of this unique-id: the rule's name.
    Denied(MessageCommand, Uid, Name),
    /// The client took the last octet that it was owed. If a line acted then, the account is that
    /// line's.
    Taken,
    /// A session quit.
    Quit(Removal),
    /// QUIT came before a login.
    QuitBeforeLogin,
    /// The connection was ended, and no line ended it.
    Ended(End),
}

/// How a line was answered, and its account.
#[derive(Drop)]
pub struct LineReport {
    pub outcome: LineOutcome,
    /// What was judged of the line.
    pub account: Account,
}

/// What came of an event: its outcome, and its account.
#[derive(Drop)]
pub struct EventReport {
    /// What the event is answered.
    pub outcome: Outcome,
    /// What the office judged in the event.
    pub account: Account,
}

/// How a login was judged that got this reply, by the rule that let the clerk in, if one did;
/// `None` for a reply that judges no login.
fn judgement(reply: &Reply<'_>, rule: Option<Name>) -> Option<Verdict>
    ensures { result ≡ verdict_of (Says (reply_seen reply.now)) rule }
{
    match reply {
        Reply::MaildropHas { .. } => accepted(rule),
        Reply::LoginFailed => Some(Verdict::WrongCredential),
        Reply::LoginFailedClosing => Some(Verdict::ThirdWrongCredential),
        Reply::DeniedBy(rule) => Some(Verdict::Denied(*rule)),
        Reply::NoSuchMaildrop => Some(Verdict::NoSuchMaildrop),
        Reply::InUse => Some(Verdict::InUse),
        Reply::StoreFailed => Some(Verdict::StoreFailed),
        Reply::Greeting { .. } | Reply::LineTooLong | Reply::UnknownCommand => None,
        Reply::WrongState | Reply::BadArguments | Reply::Capabilities | Reply::SendPass => None,
        Reply::DropListing { .. } | Reply::ScanLine { .. } | Reply::UidLine { .. } => None,
        Reply::Marked(_) | Reply::Okay | Reply::NoSuchMessage | Reply::AlreadyMarked(_) => None,
        Reply::Bye | Reply::RemovalDenied(_) | Reply::RemovalFailed => None,
    }
}

/// The verdict on a clerk whom a rule let in.
fn accepted(rule: Option<Name>) -> Option<Verdict>
    ensures { result ≡ accepted_by rule }
{
    match rule {
        Some(rule) => Some(Verdict::Accepted(rule)),
        None => None,
    }
}

/// Whether a line that was answered so was done.
fn was_done(outcome: LineOutcome) -> bool
    ensures { result ≡ was_done_so outcome }
{
    match outcome {
        LineOutcome::Done => true,
        LineOutcome::Failed => false,
    }
}

/// The account of a login that was judged, if one was, under a name.
fn of_login(judged: Option<Verdict>, by: Way, user: Option<LoginName>) -> Account
    ensures { result ≡ login_told judged by user }
{
    let Some(judged) = judged else {
        return Account::Nothing;
    };
    let Some(name) = user else {
        return Account::Nothing;
    };
    Account::Login(name, by, judged)
}

/// The account of a command that did to the message that it named what it says, by this rule.
fn of_doing(command: MessageCommand, named: Option<MessageRow>, rule: Name) -> Account
    ensures { result ≡ done_told command named rule }
{
    let Some(message) = named else {
        return Account::Nothing;
    };
    match command {
        MessageCommand::Dele => Account::Marked,
        MessageCommand::Retr => Account::Retrieved(message, rule),
        MessageCommand::Top => Account::Topped(message, rule),
    }
}

/// The account of a command that a rule denied, for the message that it named.
fn of_denial(command: MessageCommand, named: Option<MessageRow>, rule: Name) -> Account
    ensures { result ≡ denial_told command named rule }
{
    match named {
        Some(message) => Account::Denied(command, message.uid, rule),
        None => Account::Nothing,
    }
}

/// The account of a command that got this reply, for the message that it named.
fn of_message(command: MessageCommand, reply: &Reply<'_>, named: Option<MessageRow>) -> Account
    ensures { (rule : Option (List ℕ))
        → result ≡ message_told command (Says (reply_seen reply.now)) rule named }
{
    match reply {
        Reply::Marked(_) => Account::Marked,
        Reply::DeniedBy(rule) => of_denial(command, named, *rule),
        _ => Account::Nothing,
    }
}

/// The account of a RSET that got this reply.
fn of_reset(reply: &Reply<'_>) -> Account
    ensures { result ≡ reset_told (Says (reply_seen reply.now)) }
{
    match reply {
        Reply::MaildropHas { .. } => Account::Unmarked,
        _ => Account::Nothing,
    }
}

/// The account of a line that is no command, and got this reply.
fn of_fault(fault: LineFault, reply: &Reply<'_>) -> Account
    ensures { result ≡ fault_told fault (Says (reply_seen reply.now)) }
{
    match fault {
        LineFault::Syntax(Keyword::User | Keyword::Apop) => match reply {
            Reply::BadArguments => Account::NoName,
            _ => Account::Nothing,
        },
        _ => Account::Nothing,
    }
}

impl Account {
    /// The account of a command that got this reply, but for a session's QUIT, RETR and TOP. `rule`
    /// let the clerk in, `user` is the login name that was in force, `named` the message that the
    /// command names.
    pub(crate) fn of_command(
        command: &Command<'_>,
        reply: &Reply<'_>,
        rule: Option<Name>,
        user: Option<LoginName>,
        named: Option<MessageRow>,
    ) -> Account
        ensures { result ≡ command_account (command_seen command.now)
            (Says (reply_seen reply.now)) rule user named }
    {
        match command {
            Command::Pass(_) => of_login(judgement(reply, rule), Way::Pass, user),
            Command::Apop(name, _) => of_login(judgement(reply, rule), Way::Apop, Some(*name)),
            Command::Dele(_) => of_message(MessageCommand::Dele, reply, named),
            Command::Retr(_) => of_message(MessageCommand::Retr, reply, named),
            Command::Top(_, _) => of_message(MessageCommand::Top, reply, named),
            Command::Rset => of_reset(reply),
            Command::Quit => Account::QuitBeforeLogin,
            Command::Capa | Command::User(_) | Command::Stat | Command::List(_) => {
                Account::Nothing
            }
            Command::Uidl(_) | Command::Noop => Account::Nothing,
        }
    }

    /// The account of a line before a login that got this reply. `rule` let the clerk in, `user` is
    /// the login name that was in force.
    pub(crate) fn of_line(
        line: &CommandLine<'_>,
        reply: &Reply<'_>,
        rule: Option<Name>,
        user: Option<LoginName>,
    ) -> Account
        ensures { result ≡ line_account (reading line.now) (Says (reply_seen reply.now)) rule user
            None }
    {
        match line.reading() {
            Ok(command) => Account::of_command(command, reply, rule, user, None),
            Err(why) => of_fault(*why, reply),
        }
    }

    /// The account of a RETR or TOP of which the store sends what it may: by the message that it
    /// names, and whether that may be read.
    pub(crate) fn of_sending(
        command: MessageCommand,
        readable: &Result<Readable, Pick>,
        named: Option<MessageRow>,
    ) -> Account
        ensures { result ≡ sending_told command readable.now named }
    {
        match readable {
            Ok(readable) => of_doing(command, named, readable.rule),
            Err(Pick::Denied(rule)) => of_denial(command, named, *rule),
            Err(Pick::NoSuch | Pick::Deleted) => Account::Nothing,
        }
    }

    /// The account of a command with this outcome: this one if it was done, and nothing if the
    /// store failed.
    pub(crate) fn if_done(self, outcome: LineOutcome) -> Account
        ensures { result ≡ told_if_done outcome self }
    {
        match outcome {
            LineOutcome::Done => self,
            LineOutcome::Failed => Account::Nothing,
        }
    }

    /// The account of a taking of all that was owed, after which a line with this account acted,
    /// or none.
    pub(crate) fn or_taken(self) -> Account
        ensures { result ≡ taken_told self }
    {
        match &self {
            Account::Nothing => Account::Taken,
            Account::Login(_, _, _) | Account::NoName | Account::Marked | Account::Unmarked => self,
            Account::Retrieved(_, _) | Account::Topped(_, _) => self,
            Account::Denied(_, _, _) => self,
            Account::Taken | Account::Quit(_) | Account::QuitBeforeLogin => self,
            Account::Ended(_) => self,
        }
    }

    /// The account of a session's QUIT, by what was planned of it. `outcome` says whether what the
    /// policy lets the clerk remove was removed.
    pub(crate) fn of_quit(session: &Session, plan: QuitPlan, outcome: LineOutcome) -> Account
        ensures { (p : Policy) → IsPlan p session.now plan
            → result ≡ Account.Quit (removal_told outcome p session.now) }
    {
        let name = LoginName {
            clerk: session.clerk(),
            maildrop: session.maildrop(),
        };
        let QuitPlan {
            marked,
            keys: _keys,
            removed,
            denied,
        } = plan;
        Account::Quit(Removal {
            name,
            marked,
            removed,
            denied,
            is_done: was_done(outcome),
        })
    }
}

/// The report of a session's line that was answered so. `told` is its account if the line was done;
/// if the store failed, it has none. An error is want of memory.
pub(crate) fn report(
    answered: Result<LineOutcome, AllocError>,
    told: Account,
) -> Result<LineReport, AllocError>
    ensures { result ≡ reported answered told }
{
    match answered {
        Ok(outcome) => {
            let account = told.if_done(outcome);
            Ok(LineReport { outcome, account })
        }
        Err(fault) => Err(fault),
    }
}

impl EventReport {
    /// Of an event in which nothing was judged.
    pub(crate) fn silent(outcome: Outcome) -> EventReport
        ensures { result ≡ record { outcome = outcome; account = Account.Nothing } }
    {
        EventReport {
            outcome,
            account: Account::Nothing,
        }
    }

    /// Of an event that is ignored.
    pub(crate) fn ignored(reason: Reason) -> EventReport
        ensures { result ≡ record
            { outcome = Outcome.Ignored reason; account = Account.Nothing } }
    {
        EventReport::silent(Outcome::Ignored(reason))
    }

    /// Of a taking of all that was owed, after which no line acts.
    pub(crate) fn all_taken() -> EventReport
        ensures { result ≡ record { outcome = Outcome.Done; account = Account.Taken } }
    {
        EventReport {
            outcome: Outcome::Done,
            account: Account::Taken,
        }
    }

    /// Of an event that ended a connection, as no line did.
    pub(crate) fn ended(outcome: Outcome, end: End) -> EventReport
        ensures { result ≡ record { outcome = outcome; account = Account.Ended end } }
    {
        EventReport {
            outcome,
            account: Account::Ended(end),
        }
    }
}
