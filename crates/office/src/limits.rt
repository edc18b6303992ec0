//! An office's settings: its idle seconds, when removals are judged, and which requests of the
//! administration are answered.
ghost use Rattle.std.specs.Prelude.{◌≡◌, ◌≤◌, ◌↔◌, IsSome, IfSome};
ghost use Rattle.session.specs.declared.removals.Removals.TheVariants.{JudgedAtDele};
ghost use Rattle.office.specs.Events.{no_access};

use session::Removals;
use std::marker::Model;

/// Which requests the administration answers only if it is opened so.
#[derive(Clone, Copy, PartialEq, Eq)]
pub struct AdminAccess {
    /// GET on `/clerks` lists the clerks. Otherwise there is no such route.
    pub lists_clerks: bool,
}

/// How long a connection may do nothing, in seconds: 600 to 86,400 (RFC 1939, section 3, asks for
/// at least ten minutes); when removals are judged; and which requests of the administration are
/// answered.
#[derive(Clone, Copy)]
pub struct Limits {
    idle: u32,
    removals: Removals,
    access: AdminAccess,
}

impl Model for Limits {
    ghost use Rattle.std.specs.Prelude.{◌≤◌};
    ghost use Rattle.office.specs.Events.{Limits};

    ghost Value = { Limits };

    ghost view = { λ l. record { idle = l.idle; removals = l.removals; access = l.access } };

    ghost invariant = { λ l. (600 ≤ l.idle) × (l.idle ≤ 86400) };

    ghost inverse = { λ v. record { idle = v.idle; removals = v.removals; access = v.access } };
}

impl Limits {
    /// Idle seconds, with removals judged at the DELE, and no list of the clerks. None if the
    /// seconds are out of range.
    pub fn new(idle: u32) -> Option<Limits>
        ensures valid { IsSome result ↔ ((600 ≤ idle) × (idle ≤ 86400)) }
        ensures value { IfSome result (λ limits. limits
            ≡ record {
              idle = idle;
              removals = JudgedAtDele;
              access = no_access;
            }) }
    {
        if (600..=86_400).contains(&idle) {
            Some(Limits {
                idle,
                removals: Removals::JudgedAtDele,
                access: AdminAccess {
                    lists_clerks: false,
                },
            })
        } else {
            None
        }
    }

    /// The same settings, with removals judged as this says.
    pub fn with_removals(self, removals: Removals) -> Limits
        ensures { result ≡ record self { removals = removals } }
    {
        Limits {
            idle: self.idle,
            removals,
            access: self.access,
        }
    }

    /// The same settings, with these requests of the administration answered.
    pub fn with_access(self, access: AdminAccess) -> Limits
        ensures { result ≡ record self { access = access } }
    {
        Limits {
            idle: self.idle,
            removals: self.removals,
            access,
        }
    }

    /// The idle seconds.
    pub(crate) fn idle(&self) -> u64
        ensures { result ≡ self.now.idle }
    {
        u64::from(self.idle)
    }

    /// Which requests of the administration are answered.
    pub(crate) fn access(&self) -> AdminAccess
        ensures { result ≡ self.now.access }
    {
        self.access
    }

    /// When removals are judged.
    pub(crate) fn removals(&self) -> Removals
        ensures { result ≡ self.now.removals }
    {
        self.removals
    }
}
