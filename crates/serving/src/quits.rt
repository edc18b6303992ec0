//! Long QUITs, whose lines stay unread while the store prepares what they remove.
ghost use Rattle.std.specs.Prelude.{◌≡◌, ◌<◌, ℕ, true, false, IfSome};
ghost use Rattle.serving.specs.Quits.{PreparesMore, HasStayedFor, in_a_row};

/// For how many turns in a row QUITs stay unread at most.
const MOST_TURNS: u32 = 1_000;

/// Whose QUIT stays unread, from one turn to the next.
///
/// The store prepares one at a time, and any other long one that comes meanwhile stays unread too.
/// After 1,000 turns in a row each is read as it comes.
#[derive(Drop)]
pub(crate) struct Quits {
    /// A client's QUIT stays unread in this turn.
    pub(crate) is_preparing: bool,
    /// The connection whose QUIT the store prepares.
    connection: Option<u64>,
    /// That one stayed unread in this turn.
    was_met: bool,
    /// The store can prepare more of it.
    has_more: bool,
    /// For how many more turns QUITs may stay unread.
    pub(crate) turns_left: u32,
}

impl Quits {
    /// None stays unread yet.
    pub(crate) fn new() -> Quits
        ensures { HasStayedFor 0 result }
    {
        Quits::for_turns(MOST_TURNS)
    }

    /// None ever stays unread: nobody has the store prepare any.
    pub(crate) fn read_at_once() -> Quits {
        Quits::for_turns(0)
    }

    fn for_turns(turns_left: u32) -> Quits
        ensures { result.turns_left ≡ turns_left }
    {
        Quits {
            is_preparing: false,
            connection: None,
            was_met: false,
            has_more: false,
            turns_left,
        }
    }

    /// Begins to serve the links of a turn.
    pub(crate) fn begin_turn(&mut self)
        ensures none { self.new.is_preparing ≡ false }
        ensures counts { self.new.turns_left ≡ self.old.turns_left }
    {
        self.is_preparing = false;
        self.was_met = false;
    }

    /// Whether a QUIT may stay unread in this turn.
    pub(crate) fn may_keep(&self) -> bool
        ensures { result ≡ true → 0 < self.now.turns_left }
    {
        self.turns_left > 0
    }

    /// Whether a connection's long QUIT stays unread. It does if the store can prepare more of it,
    /// if the store prepares another one, or if it prepares none yet.
    pub(crate) fn keep(&mut self, connection: u64) -> bool
        ensures kept { result ≡ true → self.new.is_preparing ≡ true }
        ensures prepares { PreparesMore self.old.is_preparing self.new.is_preparing result }
        ensures counts { self.new.turns_left ≡ self.old.turns_left }
    {
        match self.connection {
            None => {
                self.connection = Some(connection);
                self.was_met = true;
            }
            Some(other) => {
                if other == connection {
                    if !self.has_more {
                        self.connection = None;
                        return false;
                    }
                    self.was_met = true;
                }
            }
        }
        self.is_preparing = true;
        true
    }

    /// Whose QUIT the store is to prepare before the next turn, if any stayed unread in this one.
    pub(crate) fn next(&mut self) -> Option<u64>
        ensures some { IfSome result (λ _. self.old.is_preparing ≡ true) }
        ensures counts { (row : ℕ) → HasStayedFor row self.old
            → (self.old.is_preparing ≡ true → 0 < self.old.turns_left)
            → HasStayedFor (in_a_row self.old.is_preparing row) self.new }
    {
        if !self.is_preparing {
            self.connection = None;
            self.turns_left = MOST_TURNS;
            return None;
        }
        self.turns_left = self.turns_left.saturating_sub(1);
        if !self.was_met {
            self.connection = None;
        }
        self.connection
    }

    /// Notes whether the store can prepare more of it.
    pub(crate) fn note_progress(&mut self, has_more: bool)
        ensures { self.new.turns_left ≡ self.old.turns_left }
    {
        self.has_more = has_more;
    }
}
