//! Policies with as many groups of clerks as there may be. The faults of texts are tested by
//! tools/transcripts.
use crate::policies::{is_written_as, read};
use std::alloc::{AllocError, Global};
use std::test::Fail;

/// Puts group `number`, of `members` members, after a text.
fn put_group(text: &mut String, number: usize, members: usize) -> Result<(), AllocError> {
    write!(text, "[[group]]\nname = \"g{number}\"\nmembers = [\"c0\"")?;
    for member in 1..members {
        write!(text, ", \"c{member}\"")?;
    }
    text.push_str("]\n")
}

/// The text of `groups` groups of `members` members, as `Policy::write` writes it.
fn text_of(alloc: Global, groups: usize, members: usize) -> Result<String, AllocError> {
    let mut text = String::new(alloc);
    for number in 0..groups {
        if number > 0 {
            text.push_str("\n")?;
        }
        put_group(&mut text, number, members)?;
    }
    Ok(text)
}

/// How many groups there are, how many members each has, and the fault of that; empty if none.
static SIZES: [(usize, usize, &str); 5] = [
    (100, 200, ""),
    (100, 1, ""),
    (101, 1, "TooManyGroups"),
    (2, 200, ""),
    (2, 201, "group 1: GroupMembers"),
];

/// The fault of so many groups of so many members; empty if they are read, and written as the text
/// that was read.
fn fault_of(alloc: Global, groups: usize, members: usize) -> Result<String, Fail> {
    let text = text_of(alloc, groups, members)?;
    match read(alloc, text.as_str()) {
        Ok(policy) => {
            if is_written_as(alloc, &policy, text.as_str())? {
                Ok(String::new(alloc))
            } else {
                Err(Fail::new("written otherwise"))
            }
        }
        Err(fault) => Ok(fault.to_string(alloc)?),
    }
}

#[test]
fn groups_and_members_at_their_limits(rt: HostRuntime) -> Result<(), Fail> {
    for (groups, members, want) in &SIZES {
        let fault = fault_of(rt.alloc(), *groups, *members)?;
        assert!(rt; fault.as_str() == *want, "{groups} {members}: {fault}");
    }
    Ok(())
}
