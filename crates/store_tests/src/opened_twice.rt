//! What no clause says: that `open_twice` succeeds, given memory.
use creds::Name;
use jobs::open_twice;
use office::{AdminCommand, Answer, Event, Limits, Outcome};
use std::test::Fail;

#[test]
fn second_office_has_the_maildrop_of_the_first(rt: HostRuntime) -> Result<(), Fail> {
    let limits = Limits::new(600).ok_or("limits")?;
    let orders = Name::read(b"orders").ok_or("a name")?;
    let add = AdminCommand::AddMaildrop(orders);
    let removal = AdminCommand::DropMaildrop(orders);
    let opened = open_twice(rt.alloc(), "h.test", 1, 2, limits, Event::Admin(&add));
    let Ok((first, mut office)) = opened else {
        return Err(Fail::from("it isn't opened twice"));
    };
    assert!(rt; matches!(first, Outcome::Answered(Answer::Added)));
    let second = office.step(Event::Admin(&removal));
    assert!(rt; matches!(second, Outcome::Answered(Answer::Dropped)));
    Ok(())
}
