//! Large files of a spool over a folder: they are read in pieces, and what is prepared of them and
//! what is read of them in the end is what lies in the folder then.
use mailtext::canon;
use serving::{Clock, FileName, FolderSpool, Links, NoListener, ScriptWire, Server, Spool};
use sqlvault::{Ahead, SqlVault};
use std::alloc::Global;
use std::fs;
use std::test::Fail;
use transcripts::offices::prepared;
use vault::Vault;

/// More octets than are read in three pieces.
const LARGE: usize = 800_000;

/// The name of a large file.
const NAME: &[u8] = b"orders.note.x.eml";

/// A text of so many octets and some more, of lines that this one ends.
fn text_of(alloc: Global, octets: usize, line: &[u8]) -> Result<Vec<u8>, Fail> {
    let mut text = Vec::new(alloc);
    text.extend_from_slice(b"Subject: a\n\n")?;
    for n in 0..octets {
        text.extend_from_slice(format!(in alloc; "{n}, and some more of it")?.as_bytes())?;
        text.extend_from_slice(line)?;
        if text.len() > octets {
            break;
        }
    }
    Ok(text)
}

/// The spool over a folder, in whose pauses between turns files are read on.
fn spool_of<'a>(rt: &'a HostRuntime, folder: &'a str) -> FolderSpool<'a, HostRuntime> {
    let mut spool = FolderSpool::new(rt, rt.alloc(), folder);
    spool.read_on();
    spool
}

/// Whether a file is coming of which not all was read.
fn is_read<S: Spool>(spool: &S) -> bool {
    match spool.coming() {
        Some(coming) => coming.text.is_none(),
        None => false,
    }
}

/// Whether a file is coming of which all was read.
fn is_whole<S: Spool>(spool: &S) -> bool {
    match spool.coming() {
        Some(coming) => coming.text.is_some(),
        None => false,
    }
}

/// Reads on in the file that is coming, until all of it was read, or it isn't coming any more. How
/// often.
fn read_whole<S: Spool>(spool: &mut S) -> u32 {
    for count in 0..1_000u32 {
        if !is_read(spool) {
            return count;
        }
        spool.read_on();
    }
    1_000
}

/// Whether the file that is coming has the kept form of this text.
fn is_kept_as<S: Spool>(alloc: Global, spool: &S, text: &[u8]) -> Result<bool, Fail> {
    let Some(coming) = spool.coming() else {
        return Ok(false);
    };
    let Some(kept) = &coming.text else {
        return Ok(false);
    };
    Ok(kept.bytes() == canon(alloc, text)?.bytes())
}

/// Makes a folder of this name anew.
fn new_folder(rt: &HostRuntime, folder: &str) -> Result<(), Fail> {
    let _ = fs::remove_dir_all(rt, folder);
    fs::create_dir(rt, folder)?;
    Ok(())
}

/// Whether a file of this text is read in pieces, its kept form is right, and it is then read as it
/// is.
fn comes_whole(rt: &HostRuntime, text: &[u8]) -> Result<bool, Fail> {
    new_folder(rt, "large-of-a-test")?;
    fs::write(rt, "large-of-a-test/orders.note.x.eml", text)?;
    let name = FileName::read(NAME).ok_or("name")?;
    let mut spool = spool_of(rt, "large-of-a-test");
    let begins = spool.read(&name).is_none();
    let comes = read_whole(&mut spool) > 3 && is_kept_as(rt.alloc(), &spool, text)?;
    let waits = spool.read(&name).is_none();
    spool.note_prepared();
    let is_over = spool.coming().is_none() && spool.next_name(&None) == Some(name);
    let read = spool.read(&name).ok_or("text")?;
    fs::remove_dir_all(rt, "large-of-a-test")?;
    Ok(begins && comes && waits && is_over && read.as_slice() == text)
}

/// Lines by LF, by CRLF and by CRs, a text without an end of a line, and one without any.
#[test]
fn large_files_come_whole(rt: HostRuntime) -> Result<(), Fail> {
    let alloc = rt.alloc();
    assert!(rt; comes_whole(&rt, text_of(alloc, LARGE, b"\n")?.as_slice())?);
    assert!(rt; comes_whole(&rt, text_of(alloc, LARGE, b"\r\n")?.as_slice())?);
    assert!(rt; comes_whole(&rt, text_of(alloc, LARGE, b"\r\r\n\n")?.as_slice())?);
    assert!(rt; comes_whole(&rt, text_of(alloc, LARGE, b"\r")?.as_slice())?);
    Ok(())
}

/// No other file is named while a large one comes, until it was tried.
#[test]
fn no_other_is_named_until_a_large_file_was_tried(rt: HostRuntime) -> Result<(), Fail> {
    new_folder(&rt, "others-of-a-test")?;
    let text = text_of(rt.alloc(), LARGE, b"\n")?;
    fs::write(&rt, "others-of-a-test/orders.note.x.eml", text.as_slice())?;
    fs::write(&rt, "others-of-a-test/orders.note.y.eml", text.as_slice())?;
    let name = FileName::read(NAME).ok_or("name")?;
    let other = FileName::read(b"orders.note.y.eml").ok_or("name")?;
    let mut spool = spool_of(&rt, "others-of-a-test");
    assert!(rt; spool.read(&name).is_none());
    spool.read_on();
    assert!(rt; spool.next_name(&Some(name)) == Some(name));
    let _ = read_whole(&mut spool);
    assert!(rt; spool.next_name(&Some(name)) == Some(name));
    spool.note_prepared();
    assert!(rt; spool.next_name(&Some(name)) == Some(name));
    assert!(rt; spool.read(&name).is_some());
    assert!(rt; spool.next_name(&Some(name)) == Some(other));
    assert!(rt; spool.read(&other).is_none() && is_read(&spool));
    fs::remove_dir_all(&rt, "others-of-a-test")?;
    Ok(())
}

/// What is done to a large file while it comes.
#[derive(Clone, Copy)]
enum Change {
    /// Its name is given to a small file.
    Replaced,
    /// It gets more octets.
    Longer,
    /// It is gone.
    Gone,
    /// It gets a second name.
    Named,
}

fn make_change(rt: &HostRuntime, change: Change) -> Result<(), Fail> {
    let path = "changed-of-a-test/spool/orders.note.x.eml";
    match change {
        Change::Replaced => {
            fs::write(rt, "changed-of-a-test/new", "another text")?;
            fs::rename(rt, "changed-of-a-test/new", path)?;
        }
        Change::Longer => {
            let text = text_of(rt.alloc(), LARGE + 100, b"\n")?;
            fs::write(rt, path, text.as_slice())?;
        }
        Change::Gone => fs::remove_file(rt, path)?,
        Change::Named => fs::hard_link(rt, path, "changed-of-a-test/name")?,
    }
    Ok(())
}

/// How many octets are read of a large file that is changed after so many pauses: all of it was
/// read after five. `None` if none are, though it is tried again and again.
fn octets_after(rt: &HostRuntime, how: Change, pauses: u32) -> Result<Option<usize>, Fail> {
    new_folder(rt, "changed-of-a-test")?;
    fs::create_dir(rt, "changed-of-a-test/spool")?;
    let text = text_of(rt.alloc(), LARGE, b"\n")?;
    fs::write(
        rt,
        "changed-of-a-test/spool/orders.note.x.eml",
        text.as_slice(),
    )?;
    let name = FileName::read(NAME).ok_or("name")?;
    let mut spool = spool_of(rt, "changed-of-a-test/spool");
    let mut count = 0u32;
    let mut octets = None;
    for _ in 0..40u32 {
        if count == pauses {
            make_change(rt, how)?;
        }
        if let Some(text) = spool.read(&name) {
            octets = Some(text.len());
            break;
        }
        count = count.saturating_add(1);
        spool.read_on();
        if is_whole(&spool) {
            spool.note_prepared();
        }
    }
    fs::remove_dir_all(rt, "changed-of-a-test")?;
    Ok(octets)
}

/// What is read in the end is what stands at the name then, whole; and nothing of what is gone, or
/// has a second name.
#[test]
fn large_files_that_are_changed(rt: HostRuntime) -> Result<(), Fail> {
    let longer = text_of(rt.alloc(), LARGE + 100, b"\n")?.len();
    for pauses in 0..6u32 {
        assert!(rt;
            octets_after(&rt, Change::Replaced, pauses)? == Some(12),
            "{pauses}"
        );
        assert!(rt;
            octets_after(&rt, Change::Longer, pauses)? == Some(longer),
            "{pauses}"
        );
        assert!(rt;
            octets_after(&rt, Change::Gone, pauses)?.is_none(),
            "{pauses}"
        );
        assert!(rt;
            octets_after(&rt, Change::Named, pauses)?.is_none(),
            "{pauses}"
        );
    }
    Ok(())
}

/// A large file that is never noted as prepared is read at once after 1,000 pauses.
#[test]
fn a_large_file_comes_for_1000_pauses(rt: HostRuntime) -> Result<(), Fail> {
    new_folder(&rt, "endless-of-a-test")?;
    let text = text_of(rt.alloc(), LARGE, b"\n")?;
    fs::write(&rt, "endless-of-a-test/orders.note.x.eml", text.as_slice())?;
    let name = FileName::read(NAME).ok_or("name")?;
    let mut spool = spool_of(&rt, "endless-of-a-test");
    assert!(rt; spool.read(&name).is_none());
    for _ in 0..1_000u32 {
        spool.read_on();
    }
    assert!(rt; is_whole(&spool) && spool.read(&name).is_none());
    spool.read_on();
    assert!(rt; spool.coming().is_none());
    assert!(rt; spool.read(&name).ok_or("text")?.as_slice() == text.as_slice());
    fs::remove_dir_all(&rt, "endless-of-a-test")?;
    Ok(())
}

/// A clock that stands still.
#[derive(Clone, Copy)]
struct Still;

impl Clock for Still {
    ghost gave = { λ _ _. ⊥ };

    fn moment(&mut self) -> Option<u64> {
        Some(0)
    }
}

/// How many octets a link gives in a turn: the line of a NOOP.
const PIECE: usize = 6;

/// What a client sends: a NOOP in each of many turns.
fn noops(alloc: Global) -> Result<Vec<u8>, Fail> {
    let mut octets = Vec::new(alloc);
    for _ in 0..200 {
        octets.extend_from_slice(b"NOOP\r\n")?;
    }
    Ok(octets)
}

/// After how many turns a large file of the folder is gone, how many messages are there then, and
/// whether a client was answered in each turn but the first, in which it is greeted.
fn served(rt: &HostRuntime) -> Result<(u64, usize, bool), Fail> {
    let alloc = rt.alloc();
    let mut waiting = Vec::new(alloc);
    waiting.push(noops(alloc)?)?;
    let mut server = Server {
        office: prepared(alloc, Ahead::new(SqlVault::in_memory(alloc)?))?,
        wire: ScriptWire::new(alloc, waiting, PIECE),
        listener: NoListener,
    };
    let mut spool = spool_of(rt, "served-of-a-test");
    let mut links: Links = server.begin(alloc, &spool);
    let mut turns = 0u64;
    let mut is_answered = true;
    for _ in 0..100u32 {
        let before = server.wire.written(0).len();
        server.serve_while(&mut links, &mut spool, &mut Still, 1);
        is_answered &= turns == 0 || server.wire.written(0).len() > before;
        turns = turns.saturating_add(1);
        if spool.next_name(&None).is_none() {
            break;
        }
    }
    let maildrop = transcripts::offices::name("orders")?;
    let mut vault = server.office.into_vault();
    Ok((turns, vault.heads(&maildrop)?.len(), is_answered))
}

#[test]
fn others_are_served_while_a_large_file_comes(rt: HostRuntime) -> Result<(), Fail> {
    new_folder(&rt, "served-of-a-test")?;
    let text = text_of(rt.alloc(), LARGE, b"\n")?;
    fs::write(&rt, "served-of-a-test/orders.note.x.eml", text.as_slice())?;
    let (turns, messages, is_answered) = served(&rt)?;
    assert!(rt;
        turns > 3 && turns < 100 && messages == 1 && is_answered,
        "{turns} {messages}"
    );
    fs::remove_dir_all(&rt, "served-of-a-test")?;
    Ok(())
}
