//! The statements that the measures run, as a trait without clauses, so that their proofs need not
//! carry the clauses of the statements.

use mailsql::{clerks, counts, deposits, groups, mail, maildrops, rules, sheets, transaction};
use sqlite::{Alter, Connection, Error};
use std::alloc::Global;

/// The tables of a store, as the measures use them.
pub trait Tables {
    /// Makes the maildrop `orders` and puts a message of this text into it, in one transaction.
    /// Answers its key.
    fn write_message(&mut self, text: &[u8], octets: u32) -> Result<i64, Error>;

    /// How many octets the message's sheet at a place has; 0 if there is none.
    fn sheet_octets(&mut self, alloc: Global, key: i64, place: i64) -> Result<u64, Error>;

    /// Writes two clerks, a group of both, a rule, a count and a deposit.
    fn write_others(&mut self) -> Result<(), Error>;
}

impl<S: Alter> Tables for Connection<S> {
    fn write_message(&mut self, text: &[u8], octets: u32) -> Result<i64, Error> {
        transaction::begin(self)?;
        maildrops::add_maildrop(self, b"orders")?;
        let key = mail::add_message(self, b"orders", b"note", 1, i64::from(octets))?;
        sheets::add_sheets(self, key, text)?;
        transaction::commit(self)?;
        Ok(key)
    }

    fn sheet_octets(&mut self, alloc: Global, key: i64, place: i64) -> Result<u64, Error> {
        match sheets::find_sheet(alloc, self, key, place)? {
            Some(sheet) => Ok(sheet.octets.as_slice().len() as u64),
            None => Ok(0),
        }
    }

    fn write_others(&mut self) -> Result<(), Error> {
        clerks::add_clerk(self, b"ann", 2, &[200; 32])?;
        clerks::put_clerk(self, b"mrose", 1, b"tanstaaf")?;
        rules::add_rule(self, b"ann-all", 1, b"ann", b"orders", b"*", 7)?;
        groups::add_group(self, b"sales")?;
        groups::add_member(self, 1, 1, b"ann")?;
        groups::add_member(self, 1, 2, b"mrose")?;
        counts::set_count(self, b"orders", b"note", 1)?;
        deposits::add_deposit(self, b"orders", b"d1", b"note", 1, &[9; 32])
    }
}
