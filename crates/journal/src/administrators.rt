//! The connections of the administration, as the log has them.
use super::asked_text::{asked_line, unasked_line};
use serving::{AdminRequest, Link};
use std::alloc::{AllocError, Global};

/// The lines of what was asked: if a response went out, and if none did.
#[derive(Drop)]
struct Heard {
    sent: Result<String, AllocError>,
    unsent: Result<String, AllocError>,
}

/// A connection of the administration, and what was asked over it.
#[derive(Drop)]
struct Administrator {
    link: Link,
    /// From where it came, as the log writes it.
    who: String,
    heard: Option<Heard>,
    /// An octet of its response went out.
    is_sent: bool,
}

/// The connections of the administration.
#[derive(Drop)]
pub struct Administrators {
    administrators: Vec<Administrator>,
}

impl Administrators {
    /// Nobody is connected.
    pub fn new(alloc: Global) -> Administrators {
        Administrators {
            administrators: Vec::new(alloc),
        }
    }

    /// A link came, from this address. Its error is want of memory: then the log doesn't mention
    /// this link.
    pub fn come(&mut self, alloc: Global, link: Link, address: &str) -> Result<(), AllocError> {
        let who = format!(in alloc; "client={address}")?;
        self.administrators.push(Administrator {
            link,
            who,
            heard: None,
            is_sent: false,
        })?;
        Ok(())
    }

    /// The administrator at a link.
    fn at(&mut self, link: Link) -> Option<&mut Administrator> {
        self.administrators.iter_mut().find(|it| it.link == link)
    }

    /// Takes what was asked over a link, and the name of the policy that is in force since.
    pub fn ask(
        &mut self,
        alloc: Global,
        link: Link,
        asked: &AdminRequest<'_>,
        in_force: &Option<String>,
    ) {
        if let Some(administrator) = self.at(link) {
            let who = administrator.who.as_str();
            let heard = Heard {
                sent: asked_line(alloc, who, asked, true, in_force),
                unsent: asked_line(alloc, who, asked, false, in_force),
            };
            administrator.heard = Some(heard);
        }
    }

    /// Takes that an octet of a response went out on a link.
    pub fn send(&mut self, link: Link) {
        if let Some(administrator) = self.at(link) {
            administrator.is_sent = true;
        }
    }

    /// A link is closed. Its line, if the link is known.
    pub fn close(&mut self, alloc: Global, link: Link) -> Option<Result<String, AllocError>> {
        let at = self.administrators.iter().position(|it| it.link == link)?;
        let Administrator {
            link: _,
            who,
            heard,
            is_sent,
        } = self.administrators.swap_remove(at);
        match heard {
            Some(Heard { sent, unsent }) => Some(if is_sent { sent } else { unsent }),
            None => Some(unasked_line(alloc, who.as_str())),
        }
    }
}
