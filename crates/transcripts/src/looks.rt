//! What the administration shows of all that an office keeps, as one text.
use converse::replay::tell;
use converse::script::{Line, read_script};
use office::{Event, Office};
use std::alloc::Global;
use std::test::Fail;
use vault::Vault;

/// The commands that list all that the offices of these tests keep: the messages, the clerks, the
/// policy and the sessions.
pub static LOOK: &str = "maildrops\nlist orders\nlist sales\nclerk show ann\nclerk show bob\n\
    clerk show cat\nclerk show dan\nclerk show eve\nclerk show mrose\npolicy\nsessions\n";

/// What an office answers to `LOOK`, as one text. Fails if memory for the text is refused.
pub fn look<V: Vault>(alloc: Global, office: &mut Office<V>) -> Result<Vec<u8>, Fail> {
    let mut told = Vec::new(alloc);
    let lines = read_script(alloc, LOOK.as_bytes())?;
    for line in &lines {
        if let Line::Admin(command) = line {
            let outcome = office.step(Event::Admin(command));
            tell(alloc, &mut told, &outcome)?;
        }
    }
    Ok(told)
}
