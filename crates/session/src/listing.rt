//! The unmarked messages of a view, one by one (RFC 1939, 5: LIST; 7: UIDL).
ghost use Rattle.std.specs.Prelude.{◌≡◌};
ghost use Rattle.std.specs.Iterator.{YieldsFirst, item_count};
ghost use Rattle.session.specs.Rows.{unmarked_from};
ghost use Rattle.session.specs.Session.{octets_of, uid_of};
ghost use Rattle.session.specs.View.{sizes_of, uids_of};

use crate::row::Row;
use creds::Uid;
use std::marker::Model;
use vault::Head;

/// Iterates over the unmarked messages of a view, with their numbers.
#[derive(Drop)]
pub(crate) struct Unmarked<'a> {
    rows: &'a [Row],
    passed: usize,
}

impl<'a> Model for Unmarked<'a> {
    ghost use Rattle.std.specs.Prelude.{ℕ, List, ◌+◌, drop};
    ghost use Rattle.vault.specs.declared.answer.Head.{Head};
    ghost use Rattle.session.specs.Rows.{unmarked_from};

    ghost Value = { List (ℕ × Head) };

    ghost view = { λ u. unmarked_from (u.passed + 1) (drop u.passed u.rows.now) };
}

impl<'a> Unmarked<'a> {
    pub(crate) fn new(rows: &'a [Row]) -> Unmarked<'a>
        ensures { result ≡ unmarked_from 1 rows.now }
    {
        Unmarked { rows, passed: 0 }
    }
}

impl<'a> Iterator for Unmarked<'a> {
    type Item = (u64, Head);

    ghost next_gives = { YieldsFirst (λ rest. rest) };

    ghost remaining = { item_count (λ rest. rest) };

    fn next(&mut self) -> Option<(u64, Head)> {
        while self.passed < self.rows.len() {
            let row = self.rows[self.passed];
            self.passed += 1;
            if !row.is_marked {
                return Some((self.passed as u64, row.head));
            }
        }
        None
    }
}

/// Iterates over a scan listing: the number of each unmarked message, counted from 1, and its
/// octets, in ascending order of the numbers (RFC 1939, 5: LIST). It allocates nothing.
#[derive(Drop)]
pub struct Sizes<'a> {
    unmarked: Unmarked<'a>,
}

impl<'a> Model for Sizes<'a> {
    ghost use Rattle.std.specs.Prelude.{ℕ, List};
    ghost use Rattle.session.specs.Session.{octets_of};
    ghost use Rattle.session.specs.View.{sizes_of};

    ghost Value = { List (ℕ × ℕ) };

    ghost view = { λ s. sizes_of octets_of s.unmarked };
}

impl<'a> Sizes<'a> {
    pub(crate) fn new(rows: &'a [Row]) -> Sizes<'a>
        ensures { result ≡ sizes_of octets_of (unmarked_from 1 rows.now) }
    {
        Sizes {
            unmarked: Unmarked::new(rows),
        }
    }
}

impl<'a> Iterator for Sizes<'a> {
    type Item = (u64, u64);

    ghost next_gives = { YieldsFirst (λ rest. rest) };

    ghost remaining = { item_count (λ rest. rest) };

    fn next(&mut self) -> Option<(u64, u64)> {
        let (number, head) = self.unmarked.next()?;
        Some((number, head.octets))
    }
}

/// Iterates over a unique-id listing: the number of each unmarked message, counted from 1, and its
/// unique-id, in ascending order of the numbers (RFC 1939, 7: UIDL). It allocates nothing.
#[derive(Drop)]
pub struct Uids<'a> {
    unmarked: Unmarked<'a>,
}

impl<'a> Model for Uids<'a> {
    ghost use Rattle.std.specs.Prelude.{ℕ, List};
    ghost use Rattle.creds.specs.declared.uid.Uid.{Uid};
    ghost use Rattle.session.specs.Session.{uid_of};
    ghost use Rattle.session.specs.View.{uids_of};

    ghost Value = { List (ℕ × Uid) };

    ghost view = { λ u. uids_of uid_of u.unmarked };
}

impl<'a> Uids<'a> {
    pub(crate) fn new(rows: &'a [Row]) -> Uids<'a>
        ensures { result ≡ uids_of uid_of (unmarked_from 1 rows.now) }
    {
        Uids {
            unmarked: Unmarked::new(rows),
        }
    }
}

impl<'a> Iterator for Uids<'a> {
    type Item = (u64, Uid);

    ghost next_gives = { YieldsFirst (λ rest. rest) };

    ghost remaining = { item_count (λ rest. rest) };

    fn next(&mut self) -> Option<(u64, Uid)> {
        let (number, head) = self.unmarked.next()?;
        let uid = Uid {
            class: head.class,
            k: head.k,
        };
        Some((number, uid))
    }
}
