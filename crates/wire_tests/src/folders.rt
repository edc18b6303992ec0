//! A spool over a folder.
use crate::swapped::{Guise, Swapped};
use serving::{FileName, FolderSpool, Spool};
use std::fs;
use std::os::unix::fs::symlink;
use std::test::Fail;
use std::time::{Duration, Instant};

#[test]
fn files_of_a_folder(rt: HostRuntime) -> Result<(), Fail> {
    let alloc = rt.alloc();
    let _ = fs::remove_dir_all(&rt, "spool-of-a-test");
    fs::create_dir(&rt, "spool-of-a-test")?;
    fs::write(&rt, "spool-of-a-test/b.note.x.eml", "text")?;
    fs::write(&rt, "spool-of-a-test/a-b.note.x.eml", "")?;
    fs::write(&rt, "spool-of-a-test/readme.txt", "")?;
    fs::create_dir(&rt, "spool-of-a-test/c.note.x.eml")?;
    let first = FileName::read(b"a-b.note.x.eml").ok_or("name")?;
    let second = FileName::read(b"b.note.x.eml").ok_or("name")?;
    let third = FileName::read(b"c.note.x.eml").ok_or("name")?;
    let mut spool = FolderSpool::new(&rt, alloc, "spool-of-a-test");
    assert!(rt; spool.next_name(&None) == Some(first));
    assert!(rt; spool.next_name(&Some(first)) == Some(second));
    assert!(rt; spool.next_name(&Some(second)) == Some(third));
    assert!(rt; spool.next_name(&Some(third)) == Some(first));
    assert!(rt; spool.read(&third).is_none());
    let text = spool.read(&second).ok_or("text")?;
    assert!(rt; text.as_slice() == b"text".as_slice());
    assert!(rt; spool.remove(&second) && !spool.remove(&second));
    assert!(rt; spool.rename(&first) && spool.read(&first).is_none());
    assert!(rt; spool.next_name(&None) == Some(third));
    fs::remove_dir_all(&rt, "spool-of-a-test")?;
    Ok(())
}

/// After so many looks at a folder a file that was left must be named again.
const LOOKS: u32 = 100_000_000;

/// Whether a file is the next one after another, and can be read.
fn is_next<S: Spool>(spool: &mut S, last: Option<FileName>, name: FileName) -> bool {
    spool.next_name(&last) == Some(name) && spool.read(&name).is_some()
}

/// Files that were tried and left are named again only if there is no other one, a second later.
#[test]
fn files_that_were_left_rest(rt: HostRuntime) -> Result<(), Fail> {
    let _ = fs::remove_dir_all(&rt, "left-of-a-test");
    fs::create_dir(&rt, "left-of-a-test")?;
    fs::write(&rt, "left-of-a-test/b.note.x.eml", "text")?;
    fs::write(&rt, "left-of-a-test/d.note.x.eml", "text")?;
    let first = FileName::read(b"b.note.x.eml").ok_or("name")?;
    let other = FileName::read(b"c.note.x.eml").ok_or("name")?;
    let second = FileName::read(b"d.note.x.eml").ok_or("name")?;
    let mut spool = FolderSpool::new(&rt, rt.alloc(), "left-of-a-test");
    let begun = Instant::now(&rt)?;
    assert!(rt; is_next(&mut spool, None, first) && is_next(&mut spool, Some(first), second));
    assert!(rt; spool.next_name(&Some(second)).is_none());
    fs::write(&rt, "left-of-a-test/c.note.x.eml", "text")?;
    assert!(rt; is_next(&mut spool, Some(second), other) && spool.remove(&other));
    for _ in 0..LOOKS {
        if spool.next_name(&Some(other)).is_some() {
            break;
        }
    }
    assert!(rt; begun.elapsed(&rt)? >= Duration::from_secs(1));
    assert!(rt; is_next(&mut spool, Some(other), first));
    assert!(rt; spool.next_name(&Some(first)).is_none());
    fs::remove_dir_all(&rt, "left-of-a-test")?;
    Ok(())
}

/// A large file that was left is named again only after as many seconds as it has pieces.
#[test]
fn a_large_file_that_was_left_rests(rt: HostRuntime) -> Result<(), Fail> {
    let _ = fs::remove_dir_all(&rt, "rests-of-a-test");
    fs::create_dir(&rt, "rests-of-a-test")?;
    let mut text = Vec::new(rt.alloc());
    text.resize(600_000, b'x')?;
    fs::write(&rt, "rests-of-a-test/b.note.x.eml", text.as_slice())?;
    let name = FileName::read(b"b.note.x.eml").ok_or("name")?;
    let mut spool = FolderSpool::new(&rt, rt.alloc(), "rests-of-a-test");
    let begun = Instant::now(&rt)?;
    assert!(rt; is_next(&mut spool, None, name));
    for _ in 0..LOOKS {
        if spool.next_name(&Some(name)).is_some() {
            break;
        }
    }
    assert!(rt; begun.elapsed(&rt)? >= Duration::from_secs(3));
    assert!(rt; is_next(&mut spool, Some(name), name));
    fs::remove_dir_all(&rt, "rests-of-a-test")?;
    Ok(())
}

/// Whether a file has this text.
fn has(rt: &HostRuntime, path: &str, text: &str) -> Result<bool, Fail> {
    Ok(fs::read(rt, path)?.as_slice() == text.as_bytes())
}

/// Refused files of one name stand aside one by one, a hundred at most: none takes another's place,
/// and one more stays where it is.
#[test]
fn refused_files_of_one_name(rt: HostRuntime) -> Result<(), Fail> {
    let _ = fs::remove_dir_all(&rt, "refused-of-a-test");
    fs::create_dir(&rt, "refused-of-a-test")?;
    let path = "refused-of-a-test/a.note.x.eml";
    let name = FileName::read(b"a.note.x.eml").ok_or("name")?;
    let mut spool = FolderSpool::new(&rt, rt.alloc(), "refused-of-a-test");
    for number in 1..=101u32 {
        fs::write(&rt, path, format!(in rt.alloc(); "text {number}")?)?;
        assert!(rt; spool.rename(&name) == (number < 101), "{number}");
    }
    assert!(rt; has(&rt, path, "text 101")?);
    assert!(rt; has(&rt, "refused-of-a-test/a.note.x.eml.bad", "text 1")?);
    assert!(rt; has(&rt, "refused-of-a-test/a.note.x.eml.bad.2", "text 2")?);
    assert!(rt; has(&rt, "refused-of-a-test/a.note.x.eml.bad.100", "text 100")?);
    assert!(rt; spool.remove(&name) && spool.next_name(&None).is_none());
    fs::remove_dir_all(&rt, "refused-of-a-test")?;
    Ok(())
}

/// A symbolic link to a file that lies elsewhere isn't read, nor is a second name of such a file.
/// Once the file has no other name, it is read.
#[test]
fn links_in_a_folder(rt: HostRuntime) -> Result<(), Fail> {
    let _ = fs::remove_dir_all(&rt, "links-of-a-test");
    fs::create_dir(&rt, "links-of-a-test")?;
    fs::create_dir(&rt, "links-of-a-test/spool")?;
    fs::write(&rt, "links-of-a-test/store", "secret")?;
    symlink(&rt, "../store", "links-of-a-test/spool/a.note.x.eml")?;
    fs::hard_link(
        &rt,
        "links-of-a-test/store",
        "links-of-a-test/spool/b.note.x.eml",
    )?;
    let linked = FileName::read(b"a.note.x.eml").ok_or("name")?;
    let named = FileName::read(b"b.note.x.eml").ok_or("name")?;
    let mut spool = FolderSpool::new(&rt, rt.alloc(), "links-of-a-test/spool");
    assert!(rt; spool.next_name(&None) == Some(linked));
    assert!(rt; spool.read(&linked).is_none());
    assert!(rt; spool.read(&named).is_none());
    fs::remove_file(&rt, "links-of-a-test/store")?;
    assert!(rt; spool.read(&linked).is_none());
    let text = spool.read(&named).ok_or("text")?;
    assert!(rt; text.as_slice() == b"secret".as_slice());
    fs::remove_dir_all(&rt, "links-of-a-test")?;
    Ok(())
}

/// What a spool reads of a file that another one replaces just before it is opened.
fn read_swapped(rt: &HostRuntime, guise: Guise) -> Result<Option<Vec<u8>>, Fail> {
    let _ = fs::remove_dir_all(rt, "swaps-of-a-test");
    fs::create_dir(rt, "swaps-of-a-test")?;
    fs::create_dir(rt, "swaps-of-a-test/spool")?;
    fs::write(rt, "swaps-of-a-test/store", "secret")?;
    fs::write(rt, "swaps-of-a-test/spool/a.note.x.eml", "text")?;
    let name = FileName::read(b"a.note.x.eml").ok_or("name")?;
    let swapped = Swapped {
        rt,
        file: "swaps-of-a-test/store",
        link: "../store",
        guise,
    };
    let mut spool = FolderSpool::new(&swapped, rt.alloc(), "swaps-of-a-test/spool");
    let text = spool.read(&name);
    fs::remove_dir_all(rt, "swaps-of-a-test")?;
    Ok(text)
}

/// A link or a second name that replaces a file isn't read. A file that is renamed to it is read,
/// since it then lies in the folder.
#[test]
fn files_swapped_while_read(rt: HostRuntime) -> Result<(), Fail> {
    assert!(rt; read_swapped(&rt, Guise::Link)?.is_none());
    assert!(rt; read_swapped(&rt, Guise::Name)?.is_none());
    assert!(rt; read_swapped(&rt, Guise::LinkThenName)?.is_none());
    let text = read_swapped(&rt, Guise::Itself)?.ok_or("text")?;
    assert!(rt; text.as_slice() == b"secret".as_slice());
    Ok(())
}
