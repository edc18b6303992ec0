//! Which file of a spool is the next.
ghost use Rattle.std.specs.Prelude.{◌≡◌, OnOk, option_map, string_bytes};
ghost use Rattle.creds.specs.Names.{comes_before as precedes};
ghost use Rattle.serving.specs.NextNames.{is_file as has_form, is_behind as follows};
ghost use Rattle.serving.specs.NextNames.{is_less as is_least, least_after};
ghost use Rattle.serving.specs.NextNames.{tries_left, tried_of, looks_after, LeftFilesAreTried};
ghost use Rattle.serving.specs.NextNames.{NoneIsPassedOver};

use crate::file_name::FileName;
use std::alloc::{AllocError, Global};
use std::marker::Model;

/// After so many looks that tried none of the files that were left, one is tried before new ones.
const MOST_LOOKS: u32 = 1_000;

/// Finds the next name of a spool, whose names are seen in any order: the least one that is greater
/// than the last one, else the least of all.
#[derive(Drop)]
pub(crate) struct NextName {
    alloc: Global,
    /// The name that was tried last; the empty text if none was.
    last: String,
    /// The least name so far.
    least: Option<String>,
    /// The least name so far that is greater than the last one.
    behind: Option<String>,
}

/// Whether a text is a spool file's name.
fn is_file(name: &str) -> bool
    ensures { result ≡ has_form name.now }
{
    FileName::read(name.as_bytes()).is_some()
}

/// Whether the first text comes before the second, in the order of their octets.
fn comes_before(first: &str, second: &str) -> bool
    ensures { result ≡ precedes first.now second.now }
{
    first < second
}

/// Whether a text is a spool file's name after the last one.
fn is_behind(last: &str, name: &str) -> bool
    ensures { result ≡ follows last.now name.now }
{
    is_file(name) && comes_before(last, name)
}

/// Whether a name is less than the least one so far.
fn is_less(name: &str, least: &Option<String>) -> bool
    ensures { result ≡ is_least name.now (option_map string_bytes least.now) }
{
    match least {
        Some(least) => comes_before(name, least.as_str()),
        None => true,
    }
}

/// Keeps a name that counts, if it is less than the least one so far.
fn keep_least(
    alloc: Global,
    name: &str,
    counts: bool,
    least: &mut Option<String>,
) -> Result<(), AllocError>
    ensures { OnOk result (option_map string_bytes least.new
        ≡ least_after counts name.now (option_map string_bytes least.old)) }
{
    if counts && is_less(name, least) {
        *least = Some(String::from_str(alloc, name)?);
    }
    Ok(())
}

impl NextName {
    ghost use Rattle.std.specs.Prelude.{◌≡◌, ℕ, List, [], ◌∷◌, Option, IfOk, OnOk};
    ghost use Rattle.serving.specs.NextNames.{HasSeen, next_of};
    ghost use Rattle.serving.specs.declared.file_name.FileName.{FileName as TheName};

    /// No name was seen. Its error is [`AllocError`], if memory was refused.
    pub(crate) fn new(alloc: Global, last: &Option<FileName>) -> Result<NextName, AllocError>
        ensures { IfOk result (λ next. HasSeen last.now [] next) }
    {
        let last = match last {
            Some(name) => name.text(alloc)?,
            None => String::new(alloc),
        };
        Ok(NextName {
            alloc,
            last,
            least: None,
            behind: None,
        })
    }

    /// Sees a name; one that isn't of the form is passed over. Its error is [`AllocError`], if
    /// memory was refused: don't ask for the next name then.
    pub(crate) fn see(&mut self, name: &str) -> Result<(), AllocError>
        ensures { OnOk result ((last : Option TheName) (names : List (List ℕ))
            → HasSeen last names self.old → HasSeen last (name.now ∷ names) self.new) }
    {
        let counts = is_file(name);
        keep_least(self.alloc, name, counts, &mut self.least)?;
        let follows = is_behind(self.last.as_str(), name);
        keep_least(self.alloc, name, follows, &mut self.behind)?;
        Ok(())
    }

    /// The next name of those seen: the least one greater than the last one, else the least of all;
    /// `None` if none was of the form.
    pub(crate) fn get(&self) -> Option<FileName>
        ensures { (last : Option TheName) (names : List (List ℕ)) → HasSeen last names self.now
            → result ≡ next_of last names }
    {
        match (&self.behind, &self.least) {
            (Some(text), _) | (None, Some(text)) => FileName::read(text.as_bytes()),
            (None, None) => None,
        }
    }
}

/// What a look at the folder of a spool finds.
#[derive(Clone, Copy)]
pub(crate) struct Look {
    /// The next of the files that weren't left before.
    pub(crate) new: Option<FileName>,
    /// The next of those that were left.
    pub(crate) left: Option<FileName>,
    /// One was left so few seconds ago that none of those is tried.
    pub(crate) rests: bool,
}

impl Look {
    /// Whether a file that was left is tried, after so many looks that tried none of them.
    fn tries_left(&self, looks: u32) -> bool
        ensures { result ≡ tries_left looks self.now }
    {
        let has_turn = self.new.is_none() || MOST_LOOKS <= looks;
        !self.rests && self.left.is_some() && has_turn
    }
}

/// How many looks one after the other tried none of the files that were left, as far as that
/// matters.
#[derive(Drop)]
pub(crate) struct LooksWithout {
    count: u32,
}

impl Model for LooksWithout {
    ghost use Rattle.std.specs.Prelude.{ℕ};

    ghost Value = { ℕ };

    ghost view = { λ looks. looks.count };
}

impl LooksWithout {
    /// There was none.
    pub(crate) fn new() -> LooksWithout
        ensures { result ≡ 0 }
    {
        LooksWithout { count: 0 }
    }

    /// Which file is tried after a look.
    pub(crate) fn choose(&mut self, look: &Look) -> Option<FileName>
        ensures tried { result ≡ tried_of self.old look.now }
        ensures looks { self.new ≡ looks_after self.old look.now }
    {
        if look.tries_left(self.count) {
            self.count = 0;
            return look.left;
        }
        self.count = self.count.saturating_add(1).min(MOST_LOOKS);
        look.new
    }
}

/// A law: no more than 1,000 looks one after the other, at which one of the files that were left
/// could be tried, try none of them, whatever else lies in the folder; and from one to the next no
/// file of the folder is passed over.
pub fn left_files_are_tried()
    ensures looks { LeftFilesAreTried }
    ensures rounds { NoneIsPassedOver }
{}
