//! A mail store over the tables of a connection.
ghost use Rattle.std.specs.Prelude.{◌≡◌, false, Ok, IfOk, IfErr, IsTrue};
ghost use Rattle.sqlite.specs.Held.{Held, state};
ghost use Rattle.sqlite.specs.State.{HasCleanDisk};
ghost use Rattle.vault.specs.Calls.{CountsFaults, IsAnswer};
ghost use Rattle.sqlvault.specs.Adopts.{IsAdopted, IsKnown, IsRefused, IsAdoptFault};
ghost use Rattle.sqlvault.specs.Adopts.{LeavesEmptyToo, RefusesOlder, IsOfUnknownVersion};
ghost use Rattle.sqlvault.specs.Adopts.{RefusesVersion};
ghost use Rattle.sqlvault.specs.Carries.{HasOlder, IsCarried, LeavesEither};
ghost use Rattle.sqlvault.specs.Refusals.{answer_of, count_after, open_fault};

use crate::adopt::settle;
use crate::coming::{self, Coming};
use crate::refusal::{Refusal, fault_of, tell};
use crate::removal::{self, Removing};
use crate::{checkpoint, clerks, deposit, mail, maildrops, pages, receipts, rules, totals, work};
use creds::{Credential, DepositId, Name};
use mailtext::MailText;
use policy::Policy;
use sqlite::{Alter, Connection, Error, ErrorCode, FileFrom, FileStore, Files, MemStore, Start};
use sqlite_disk::Disk;
use std::alloc::Global;
use std::marker::Model;
use vault::{ClerkKind, Deposited, Head, MessageKey, Progress, Receipt, Total, Vault, VaultFault};

/// The octets of a page of the database, of which the log keeps copies.
const PAGE: u64 = 4_096;

/// How many octets the log has once SQLite copies it before the next write.
const LONG_LOG: u64 = 1_000 * PAGE;

/// How many octets of the log a write takes beside the texts that it puts: some pages of each table
/// and index that it changes.
const SMALL_WRITE: u64 = 8 * PAGE;

/// A mail store over the tables of a connection. Contracts see the connection, and how many calls
/// answered `Store`.
#[derive(Drop)]
pub struct SqlVault<S: Alter> {
    alloc: Global,
    conn: Connection<S>,
    faults: u64,
    /// An estimate of the log's octets: what was written since it was copied last. It decides when
    /// `maintain` copies it, and nothing else, so contracts don't see it.
    logged: u64,
}

impl<S: Alter> Model for SqlVault<S> {
    ghost use Rattle.sqlvault.specs.Opened.{Opened, opened_code};

    ghost Value = { Opened S };

    ghost coded = { opened_code S.code };

    ghost view = { λ v. record { conn = v.conn; faults = v.faults } };
}

impl SqlVault<MemStore> {
    ghost use Rattle.std.specs.Prelude.{◌⊎◌};
    ghost use Rattle.vault.specs.declared.fault.VaultFault.TheVariants.{Store, NoMemory};
    ghost use Rattle.sqlite.specs.Steps.{over_memory};
    ghost use Rattle.vault.specs.Plain.{no_contents};
    ghost use Rattle.sqlvault.specs.Stands.{Holds};

    /// A new store in memory, which holds nothing. Its tables are those of a store in a file; it is
    /// gone with the process.
    ///
    /// Answers [`VaultFault::NoMemory`] if memory was refused, and [`VaultFault::Store`] if
    /// SQLite refused a statement.
    pub fn in_memory(alloc: Global) -> Result<SqlVault<MemStore>, VaultFault>
        ensures empty { IfOk result (λ vault. IsTrue (state over_memory vault.conn).is_open
            × Holds (state over_memory vault.conn) no_contents) }
        ensures uncounted { IfOk result (λ vault. vault.faults ≡ 0) }
        ensures refused { IfErr result (λ fault. (fault ≡ Store) ⊎ (fault ≡ NoMemory)) }
    {
        match Connection::open_in_memory(alloc) {
            Ok(conn) => take(alloc, conn),
            Err(_) => Err(VaultFault::NoMemory),
        }
    }
}

impl<S: Start> SqlVault<FileStore<FileFrom<S>>> {
    ghost use Rattle.std.specs.Prelude.{Err, codes};
    ghost use Rattle.vault.specs.declared.fault.VaultFault.TheVariants.{Store};
    ghost use Rattle.sqlite_wal.specs.Files.{image_at};
    ghost use Rattle.sqlvault.specs.Adopts.{OpensIn};

    /// Opens the database file at the path, or makes it, and adopts it as [`SqlVault::adopt`] does.
    /// `start` stands for what the files hold, as in `open_from` of `sqlite`. An empty file, or
    /// none, is a store without a table.
    ///
    /// Answers what `adopt` answers; [`VaultFault::NotOurs`] for a file that is no database,
    /// [`VaultFault::NoMemory`] if memory was refused, and [`VaultFault::Store`] if the file
    /// can't be opened for another cause. The path `:memory:` names no file, and gets `Store`.
    pub fn open(
        rt: &HostRuntime,
        path: &str,
        start: S,
    ) -> Result<SqlVault<FileStore<FileFrom<S>>>, VaultFault>
        ensures opened { OpensIn (image_at S.Start) result }
        ensures memory { path.now ≡ codes ":memory:" → result ≡ Err Store }
        ensures kinds { IfErr result IsAdoptFault }
        ensures uncounted { IfOk result (λ vault. vault.faults ≡ 0) }
    {
        match Connection::open_from(rt, path, false, start) {
            Ok(conn) => take(rt.alloc(), conn),
            Err(refused) => Err(unopened(refused)),
        }
    }
}

/// Why a file isn't opened, as the vault's fault.
fn open_fault(error: &Error) -> VaultFault
    ensures { result ≡ open_fault error.now }
{
    match error {
        Error::SqliteFailure(ErrorCode::OutOfMemory) => VaultFault::NoMemory,
        Error::SqliteFailure(ErrorCode::NotADatabase) => VaultFault::NotOurs,
        _ => VaultFault::Store,
    }
}

/// Adopts a connection, and drops it if it is refused.
fn take<S: Alter + Drop>(alloc: Global, conn: Connection<S>) -> Result<SqlVault<S>, VaultFault>
    ensures adopted { IfOk result (λ vault. HasCleanDisk (state S.Store vault.conn)
        → HasCleanDisk (state S.Store conn) × (IsKnown (state S.Store conn)
        → IsAdopted (state S.Store conn) (state S.Store vault.conn))) }
    ensures stop { IfOk result (λ vault. HasCleanDisk (state S.Store vault.conn)
        → IsKnown (state S.Store conn) → IsTrue (state S.Store conn).is_open
        → LeavesEmptyToo (state S.Store conn) (state S.Store vault.conn)) }
    ensures carried { IfOk result (λ vault. HasCleanDisk (state S.Store vault.conn)
        → HasOlder (state S.Store conn) → (state S.Store conn).in_transaction ≡ false
        → IsCarried (state S.Store conn) (state S.Store vault.conn)
        × LeavesEither (state S.Store conn) (state S.Store vault.conn)) }
    ensures refused { IfErr result (λ fault. (last : Held _)
        × (HasCleanDisk (state S.Store last) → HasCleanDisk (state S.Store conn)
        × (IsKnown (state S.Store conn) → IsRefused (state S.Store conn) fault)
        × ((state S.Store conn).in_transaction ≡ false
        → RefusesOlder (state S.Store conn) (state S.Store last) fault)
        × (IsOfUnknownVersion (state S.Store conn)
        → RefusesVersion (state S.Store conn) (state S.Store last) fault))) }
    ensures known_version { IfOk result (λ vault. HasCleanDisk (state S.Store vault.conn)
        → IsOfUnknownVersion (state S.Store conn) → ⊥) }
    ensures kinds { IfErr result IsAdoptFault }
    ensures uncounted { IfOk result (λ vault. vault.faults ≡ 0) }
{
    match SqlVault::adopt(alloc, conn) {
        Ok(vault) => Ok(vault),
        Err((fault, _conn)) => Err(fault),
    }
}

/// Lets a connection to two files go, and the files with it, as dropping it does. Nothing is
/// written. A crate that drops one itself proves again how each of its parts is dropped.
pub fn let_go<D: Disk + Drop>(conn: Connection<FileStore<D>>) {
    let _gone = conn;
}

/// Why an opening was refused, as the vault's fault. Drops what came with the error.
fn unopened<T: Drop>(refused: (Error, T)) -> VaultFault
    ensures { result ≡ open_fault refused.0 }
{
    open_fault(&refused.0)
}

impl<D: Disk + Drop> SqlVault<FileStore<D>> {
    ghost use Rattle.sqlite_wal.specs.Reads.{AreClean};
    ghost use Rattle.sqlite.specs.Closing.{IsCopied};
    ghost use Rattle.sqlite.specs.Files.{file_state};
    ghost use Rattle.sqlite.specs.State.{IsLive};
    ghost use Rattle.sqlvault.specs.Closes.{IsLeft};

    /// Adopts a connection to two files, as [`SqlVault::adopt`] does. If it is refused, it is
    /// dropped, and the files with it, as [`let_go`] does.
    pub fn adopt_files(
        alloc: Global,
        conn: Connection<FileStore<D>>,
    ) -> Result<SqlVault<FileStore<D>>, VaultFault>
        ensures adopted { IfOk result (λ vault. HasCleanDisk (file_state vault.conn)
            → HasCleanDisk (file_state conn) × (IsKnown (file_state conn)
            → IsAdopted (file_state conn) (file_state vault.conn))) }
        ensures kinds { IfErr result IsAdoptFault }
        ensures uncounted { IfOk result (λ vault. vault.faults ≡ 0) }
    {
        take(alloc, conn)
    }

    /// Closes the store, as `close_files` of `sqlite` does its connection. It gives the files back
    /// beside an error too. Nothing is lost then: the file and its log hold what a stop might have
    /// left, and the next opening has the log to read.
    pub fn close_files(self) -> Result<Files<D>, (Error, Files<D>)>
        ensures live { IsLive (file_state self.conn) }
        ensures copied { IfOk result (λ files. AreClean D.Disk files.log files.db
            → IsCopied self.conn files) }
        ensures left { IfErr result (λ refused. IsLeft self.conn refused.1) }
    {
        let conn = self.conn;
        // It shows the proof that a database that is open lists its tables.
        let _schema = conn.schema();
        match conn.close_files() {
            Ok(files) => Ok(files),
            Err((error, store)) => Err((error, store.close())),
        }
    }
}

impl<S: Alter> SqlVault<S> {
    ghost use Rattle.std.specs.Prelude.{true, Err, ℕ, List, Some, None, length, take, ⊤, ◌==◌};
    ghost use Rattle.std.specs.Prelude.{bytes_eq};
    ghost use Rattle.vault.specs.declared.fault.VaultFault.TheVariants.{NotOurs};
    ghost use Rattle.vault.specs.Records.{credential_in};
    ghost use Rattle.vault.specs.Calls.{AreRemoved, IsPageRead, heads_result, text_under};
    ghost use Rattle.vault.specs.Calls.{IsDeposited};
    ghost use Rattle.sqlvault.specs.declared.work.Work.TheVariants as works;
    ghost use Rattle.sqlvault.specs.Removals.{removal_of};
    ghost use Rattle.sqlvault.specs.UnderWay.{Prepares, Finishes, GivesUp, under_way, begun};
    ghost use Rattle.sqlvault.specs.UnderWay.{IsStep, TellsBeside};
    ghost use Rattle.mailsql.specs.Names.{is_taken, has_meta_rows};
    ghost use Rattle.sqlvault.specs.Adopts.{Adopts, StaysAs, IsVersionRefused};
    ghost use Rattle.sqlvault.specs.Carries.{CarriesOver};
    ghost use Rattle.sqlvault.specs.Opened.{conn_of, judged_in};
    ghost use Rattle.vault.specs.Calls.{seen_as};
    ghost use Rattle.vault.specs.Changes.{Contents};
    ghost use Rattle.vault.specs.Stops.{IsOwn};
    ghost use Rattle.sqlvault.specs.Clerks.{AreClerks};
    ghost use Rattle.sqlvault.specs.Receipts.{AreReceipts};
    ghost use Rattle.sqlvault.specs.Frame.{Looks, Sees};
    ghost use Rattle.sqlvault.specs.Stands.{Holds, WasClean};

    /// Makes a connection a mail store.
    ///
    /// - A store without a table, an index or a view of our names gets our tables and our version
    ///   row, in one transaction, and holds nothing.
    /// - A store with our tables and version row stays as it is. All its rows are read once.
    /// - A store with the tables and the version row of version 1 or 2 is carried over, in one
    ///   transaction: it gets the tables that it lacks and our version row, and holds what it held.
    ///   The old table of messages of version 1 stays, without a row.
    ///
    /// Every error gives the connection back, its tables as they were. [`VaultFault::NotOurs`]: a
    /// transaction is under way, or one of our names is taken in a store without our version row,
    /// or our tables have other columns, or their rows aren't sound records with counts and octets
    /// that agree. [`VaultFault::OldVersion`]: our version row's version isn't 1, 2 or 3, whatever
    /// other tables there are; or it is 1 or 2 in a store that has all our tables.
    /// [`VaultFault::NoMemory`]: memory was refused. [`VaultFault::Store`]: SQLite refused a
    /// statement for another cause.
    pub fn adopt(
        alloc: Global,
        conn: Connection<S>,
    ) -> Result<SqlVault<S>, (VaultFault, Connection<S>)>
        ensures adopted { HasCleanDisk (state S.Store (conn_of result))
            → IsKnown (state S.Store conn) → Adopts (state S.Store conn)
            (state S.Store (conn_of result)) (judged_in result) }
        ensures inside { IsTrue (state S.Store conn).in_transaction → result ≡ Err (NotOurs, conn) }
        ensures taken { (state S.Store conn).in_transaction ≡ false
            → is_taken (state S.Store conn).now.schema ≡ true
            → has_meta_rows (state S.Store conn).now.schema.tables ≡ false
            → result ≡ Err (NotOurs, conn) }
        ensures kinds { IfErr result (λ refused. IsAdoptFault refused.0) }
        ensures stays { IfErr result (λ refused. HasCleanDisk (state S.Store refused.1)
            → IsKnown (state S.Store conn) → StaysAs (state S.Store conn)
            (state S.Store refused.1)) }
        ensures uncounted { IfOk result (λ vault. vault.faults ≡ 0) }
        ensures stop { HasCleanDisk (state S.Store (conn_of result)) → IsKnown (state S.Store conn)
            → IsTrue (state S.Store conn).is_open → LeavesEmptyToo (state S.Store conn)
            (state S.Store (conn_of result)) }
        ensures clean { WasClean (state S.Store conn) (state S.Store (conn_of result)) }
        ensures carried { HasCleanDisk (state S.Store (conn_of result))
            → HasOlder (state S.Store conn) → (state S.Store conn).in_transaction ≡ false
            → CarriesOver (state S.Store conn) (state S.Store (conn_of result)) (judged_in result) }
        ensures carried_stays { IfErr result (λ refused. HasCleanDisk (state S.Store refused.1)
            → HasOlder (state S.Store conn) → (state S.Store conn).in_transaction ≡ false
            → StaysAs (state S.Store conn) (state S.Store refused.1)) }
        ensures carried_stop { HasCleanDisk (state S.Store (conn_of result))
            → HasOlder (state S.Store conn) → (state S.Store conn).in_transaction ≡ false
            → LeavesEither (state S.Store conn) (state S.Store (conn_of result)) }
        ensures unknown { HasCleanDisk (state S.Store (conn_of result))
            → IsOfUnknownVersion (state S.Store conn)
            → IsVersionRefused (state S.Store conn) (state S.Store (conn_of result))
            (judged_in result) }
    {
        let mut conn = conn;
        match settle(alloc, &mut conn) {
            Ok(()) => Ok(SqlVault {
                alloc,
                conn,
                faults: 0,
                // An earlier process may have left a log of any length.
                logged: LONG_LOG,
            }),
            Err(refusal) => Err((fault_of(refusal), conn)),
        }
    }

    /// Gives the connection back, its tables as they are. It allocates nothing.
    pub fn into_connection(self) -> Connection<S>
        ensures { result ≡ self.conn }
    {
        let SqlVault {
            alloc: _,
            conn,
            faults: _,
            logged: _,
        } = self;
        conn
    }

    /// The names of the clerks, in the order of their octets; 1,000 at most. Nothing is changed.
    ///
    /// Answers [`VaultFault::NoMemory`] if memory was refused, and [`VaultFault::Store`], which
    /// is counted, if SQLite refused the query for another cause.
    pub fn clerk_names(&mut self) -> Result<Vec<Name>, VaultFault>
        ensures done { (c : Contents) → Holds (state S.Store self.old.conn) c
            → HasCleanDisk (state S.Store self.new.conn)
            → AreClerks (Holds (state S.Store self.new.conn)) c (seen_as result (λ v. v.items)) }
        ensures counted { CountsFaults self.old.faults self.new.faults result }
        ensures looks { Looks S.Store self.old.conn self.new.conn (IsOwn result) }
    {
        let answer = clerks::clerk_names(self.alloc, &mut self.conn);
        self.told(answer)
    }

    /// The receipts of all deposits that were ever accepted, in the order of the deposits, some 200
    /// octets each. Nothing is changed.
    ///
    /// Answers [`VaultFault::NoMemory`] if memory was refused, and [`VaultFault::Store`], which is
    /// counted, if SQLite refused the query for another cause.
    pub fn receipts(&mut self) -> Result<Vec<Receipt>, VaultFault>
        ensures done { (c : Contents) → Holds (state S.Store self.old.conn) c
            → HasCleanDisk (state S.Store self.new.conn)
            → AreReceipts (Holds (state S.Store self.new.conn)) c
            (seen_as result (λ v. v.items)) }
        ensures counted { CountsFaults self.old.faults self.new.faults result }
        ensures looks { Looks S.Store self.old.conn self.new.conn (IsOwn result) }
    {
        let answer = receipts::receipts(self.alloc, &mut self.conn);
        self.told(answer)
    }

    /// Has SQLite copy its log into the database file, if the log has 1,000 pages or more. SQLite
    /// does so before the next write; this is one, which changes nothing, for a time when nobody
    /// waits. If the log is shorter, that is a commit for nothing.
    ///
    /// Answers [`VaultFault::NoMemory`] if memory was refused, and [`VaultFault::Store`], which is
    /// counted, if SQLite refused a statement for another cause.
    pub fn checkpoint(&mut self) -> Result<(), VaultFault>
        ensures counted { CountsFaults self.old.faults self.new.faults result }
        ensures looks { Looks S.Store self.old.conn self.new.conn (IsOwn result) }
        ensures answer { IsAnswer (Ok tt) result }
    {
        let answer = checkpoint::checkpoint(&mut self.conn);
        self.told(answer)
    }

    /// Where it allocates.
    pub(crate) fn allocator(&self) -> Global {
        self.alloc
    }

    /// Begins a removal in parts, in a transaction that is open until the removal is finished or
    /// given up. Until then no call but the three that follow may be made.
    pub(crate) fn begin_removal(&mut self) -> Result<(), VaultFault>
        ensures prepares { (d keys : List ℕ) → Prepares S.Store self.old.conn self.new.conn None
            (under_way result (works.Removal (removal_of d keys))) (IsOwn result) }
        ensures counted { CountsFaults self.old.faults self.new.faults result }
        ensures answer { IsAnswer (Ok tt) result }
    {
        let answer = removal::begin_removal(&mut self.conn);
        self.told(answer)
    }

    /// Does some more of a removal. After a fault none is under way, and nothing is removed.
    pub(crate) fn remove_piece(&mut self, removing: &mut Removing) -> Result<(), VaultFault>
        ensures prepares { Prepares S.Store self.old.conn self.new.conn
            (Some (works.Removal removing.old)) (under_way result (works.Removal removing.new))
            (IsOwn result) }
        ensures counted { CountsFaults self.old.faults self.new.faults result }
        ensures answer { IsAnswer (Ok tt) result }
    {
        let answer = removal::remove_piece(&mut self.conn, removing);
        self.told(answer)
    }

    /// Does the rest of a removal, and commits it. After a fault nothing is removed.
    pub(crate) fn finish_removal(&mut self, removing: &Removing) -> Result<(), VaultFault>
        ensures finishes { Finishes S.Store self.old.conn self.new.conn (works.Removal removing.now)
            (λ c Held. AreRemoved Held c removing.now.maildrop removing.now.keys) result }
        ensures counted { CountsFaults self.old.faults self.new.faults result }
    {
        let octets = removing.len().saturating_mul(PAGE);
        let answer = removal::finish_removal(&mut self.conn, removing);
        self.written(octets, answer)
    }

    /// Begins a deposit in parts, if its id is new and it would be accepted, in a transaction that
    /// is open until the deposit is finished or given up.
    pub(crate) fn start_deposit(
        &mut self,
        maildrop: &Name,
        class: &Name,
        id: &DepositId,
        text: &MailText,
    ) -> Result<Option<Coming>, VaultFault>
        ensures prepares { Prepares S.Store self.old.conn self.new.conn None (begun result)
            (IsOwn result) }
        ensures counted { CountsFaults self.old.faults self.new.faults result }
        ensures step { IsStep result }
    {
        let answer = coming::start(self.alloc, &mut self.conn, maildrop, class, id, text);
        self.told(answer)
    }

    /// Does some more of a deposit. After a fault none is under way, and nothing is changed.
    pub(crate) fn put_piece(
        &mut self,
        coming: &mut Coming,
        text: &MailText,
    ) -> Result<(), VaultFault>
        ensures prepares { Prepares S.Store self.old.conn self.new.conn
            (Some (works.Deposit coming.old)) (under_way result (works.Deposit coming.new))
            (IsOwn result) }
        ensures counted { CountsFaults self.old.faults self.new.faults result }
        ensures step { IsStep result }
    {
        let answer = coming::put_piece(&mut self.conn, coming, text);
        self.told(answer)
    }

    /// Does the rest of a deposit, and commits it. After a fault nothing is changed.
    pub(crate) fn finish_deposit(
        &mut self,
        coming: Coming,
        text: &MailText,
    ) -> Result<Deposited, VaultFault>
        requires begins { take (length coming.put) text.now ≡ coming.put }
        requires sized { coming.octets ≡ length text.now }
        ensures finishes { Finishes S.Store self.old.conn self.new.conn (works.Deposit coming)
            (λ c Held. IsDeposited Held c coming.maildrop coming.class coming.id text.now) result }
        ensures counted { CountsFaults self.old.faults self.new.faults result }
    {
        let octets = text.octets() as u64;
        let answer = coming::finish(&mut self.conn, coming, text);
        self.written(octets, answer)
    }

    /// Gives up what is under way, also if it answers a fault, or a query in its transaction met an
    /// error.
    pub(crate) fn give_up(&mut self) -> Result<(), VaultFault>
        ensures gives_up { GivesUp S.Store self.old.conn self.new.conn (IsOwn result) }
        ensures counted { CountsFaults self.old.faults self.new.faults result }
        ensures answer { IsAnswer (Ok tt) result }
    {
        let answer = work::give_up(&mut self.conn);
        self.told(answer)
    }

    /// The heads of a maildrop's messages, as [`Vault::heads`] gives them, also inside a
    /// transaction.
    pub(crate) fn look_up_heads(&mut self, maildrop: &Name) -> Result<Vec<Head>, VaultFault>
        ensures sees { Sees S.Store self.old.conn self.new.conn (IsOwn result)
            (λ c. IsAnswer (heads_result maildrop.now c) (seen_as result (λ v. v.items))) }
        ensures beside { TellsBeside S.Store self.old.conn self.new.conn
            (λ a. bytes_eq a.maildrop maildrop.now ≡ false)
            (λ c. IsAnswer (heads_result maildrop.now c) (seen_as result (λ v. v.items))) }
        ensures counted { CountsFaults self.old.faults self.new.faults result }
    {
        let answer = mail::heads(self.alloc, &mut self.conn, maildrop);
        self.told(answer)
    }

    /// Octets of a message, as [`Vault::page`] gives them, also inside a transaction.
    pub(crate) fn look_up_page(
        &mut self,
        key: MessageKey,
        from: u64,
        buffer: &mut [u8],
    ) -> Result<usize, VaultFault>
        ensures sees { Sees S.Store self.old.conn self.new.conn (IsOwn result)
            (λ c. IsPageRead (text_under key c.messages) from buffer.new result) }
        ensures beside { TellsBeside S.Store self.old.conn self.new.conn
            (λ a. (key == a.key) ≡ false)
            (λ c. IsPageRead (text_under key c.messages) from buffer.new result) }
        ensures counted { CountsFaults self.old.faults self.new.faults result }
    {
        let answer = pages::page(self.alloc, &mut self.conn, key, from, buffer);
        self.told(answer)
    }

    /// The credential of a clerk, as [`Vault::credential`] gives it, also inside a transaction.
    pub(crate) fn look_up_credential(
        &mut self,
        clerk: &Name,
    ) -> Result<Option<Credential>, VaultFault>
        ensures sees { Sees S.Store self.old.conn self.new.conn (IsOwn result)
            (λ c. IsAnswer (Ok (credential_in clerk.now c.clerks)) result) }
        ensures beside { TellsBeside S.Store self.old.conn self.new.conn (λ _. ⊤)
            (λ c. IsAnswer (Ok (credential_in clerk.now c.clerks)) result) }
        ensures counted { CountsFaults self.old.faults self.new.faults result }
    {
        let answer = clerks::find_credential(self.alloc, &mut self.conn, clerk);
        self.told(answer)
    }

    /// The answer with its refusal as the vault's fault, which is counted if it is `Store`.
    fn told<T: Drop>(&mut self, answer: Result<T, Refusal>) -> Result<T, VaultFault>
        ensures answer { result ≡ answer_of answer }
        ensures conn { self.new.conn ≡ self.old.conn }
        ensures counted { CountsFaults self.old.faults self.new.faults result }
        ensures faults { self.new.faults ≡ count_after result self.old.faults }
    {
        match answer {
            Ok(it) => Ok(it),
            Err(refusal) => Err(tell(&mut self.faults, refusal)),
        }
    }

    /// The answer as [`SqlVault::told`] gives it, of a call that writes. If it is done, the log has
    /// grown by about `octets`, beside those of a small write.
    fn written<T: Drop>(&mut self, octets: u64, answer: Result<T, Refusal>) -> Result<T, VaultFault>
        ensures answer { result ≡ answer_of answer }
        ensures conn { self.new.conn ≡ self.old.conn }
        ensures counted { CountsFaults self.old.faults self.new.faults result }
        ensures faults { self.new.faults ≡ count_after result self.old.faults }
    {
        if answer.is_ok() {
            self.logged = self
                .logged
                .saturating_add(octets.saturating_add(SMALL_WRITE));
        }
        self.told(answer)
    }
}

/// Each call of a vault, over the tables of the connection.
impl<S: Alter> Vault for SqlVault<S> {
    ghost use Rattle.sqlvault.specs.Stands.{Holds};
    ghost use Rattle.sqlvault.specs.Stops.{MayHold, settled_at};

    ghost holds = { λ v. Holds (state S.Store v.conn) };

    ghost faults = { λ v. v.faults };

    ghost is_clean = { λ v. HasCleanDisk (state S.Store v.conn) };

    ghost is_up = { λ v. IsTrue (state S.Store v.conn).is_open };

    ghost may_leave = { λ v. MayHold (state S.Store v.conn) };

    ghost sound = { λ vault c held clean. held.sound };

    ghost settled = { λ vault c clean up held left may. settled_at _ c held up
        (λ db o m. S.Store.settled vault.conn.store db o m) left may };

    fn policy(&mut self) -> Result<Policy, VaultFault> {
        let answer = rules::policy(self.alloc, &mut self.conn);
        self.told(answer)
    }

    fn set_policy(&mut self, policy: &Policy) -> Result<(), VaultFault> {
        let answer = rules::set_policy(self.alloc, &mut self.conn, policy);
        self.written(0, answer)
    }

    fn maildrops(&mut self) -> Result<Vec<Total>, VaultFault> {
        let answer = totals::maildrops(self.alloc, &mut self.conn);
        self.told(answer)
    }

    fn deposit(
        &mut self,
        maildrop: &Name,
        class: &Name,
        id: &DepositId,
        text: &MailText,
    ) -> Result<Deposited, VaultFault> {
        let answer = deposit::deposit(self.alloc, &mut self.conn, maildrop, class, id, text);
        self.written(text.octets() as u64, answer)
    }

    fn heads(&mut self, maildrop: &Name) -> Result<Vec<Head>, VaultFault> {
        self.look_up_heads(maildrop)
    }

    fn page(&mut self, key: MessageKey, from: u64, buffer: &mut [u8]) -> Result<usize, VaultFault> {
        self.look_up_page(key, from, buffer)
    }

    fn remove(&mut self, maildrop: &Name, keys: &[MessageKey]) -> Result<(), VaultFault> {
        let answer = mail::remove(&mut self.conn, maildrop, keys);
        self.written((keys.len() as u64).saturating_mul(PAGE), answer)
    }

    /// There is nothing to prepare: a removal is one transaction. [`crate::Ahead`] does it in
    /// parts.
    fn prepare_removal(
        &mut self,
        _maildrop: &Name,
        _keys: &[MessageKey],
    ) -> Result<Progress, VaultFault> {
        Ok(Progress::Ready)
    }

    /// There is nothing to prepare: a deposit is one transaction.
    fn prepare_deposit(
        &mut self,
        _maildrop: &Name,
        _class: &Name,
        _id: &DepositId,
        _text: &MailText,
    ) -> Result<Progress, VaultFault> {
        Ok(Progress::Ready)
    }

    fn credential(&mut self, clerk: &Name) -> Result<Option<Credential>, VaultFault> {
        self.look_up_credential(clerk)
    }

    fn clerks(&mut self) -> Result<Vec<ClerkKind>, VaultFault> {
        let answer = clerks::list_clerks(self.alloc, &mut self.conn);
        self.told(answer)
    }

    fn put_clerk(&mut self, clerk: &Name, credential: &Credential) -> Result<bool, VaultFault> {
        let answer = clerks::put_clerk(self.alloc, &mut self.conn, clerk, credential);
        self.written(0, answer)
    }

    fn drop_clerk(&mut self, clerk: &Name) -> Result<(), VaultFault> {
        let answer = clerks::drop_clerk(self.alloc, &mut self.conn, clerk);
        self.written(0, answer)
    }

    fn add_maildrop(&mut self, maildrop: &Name) -> Result<bool, VaultFault> {
        let answer = maildrops::add_maildrop(&mut self.conn, maildrop);
        self.written(0, answer)
    }

    fn drop_maildrop(&mut self, maildrop: &Name) -> Result<(), VaultFault> {
        let answer = maildrops::drop_maildrop(&mut self.conn, maildrop);
        self.written(0, answer)
    }

    /// Copies the log into the database file as [`SqlVault::checkpoint`] does, if by the estimate
    /// it has 1,000 pages. After a refusal it waits for the next write.
    fn maintain(&mut self) -> Result<(), VaultFault> {
        if self.logged < LONG_LOG {
            return Ok(());
        }
        self.logged = LONG_LOG - 1;
        self.checkpoint()?;
        self.logged = 0;
        Ok(())
    }
}
