//! How often a session's commands did what they say, as the log counts them.
ghost use Rattle.std.specs.Prelude.{◌≡◌, IfOk, string_bytes};
ghost use Rattle.journal.specs.Counts.{no_counts, with_dele, with_reset, with_retr, with_top};
ghost use Rattle.journal.specs.Counts.{with_denial, reads_text, counts_text};

use std::alloc::{AllocError, Global};

/// How often a session's commands did what they say. Each count and sum stays at `u64::MAX`.
#[derive(Clone, Copy)]
pub(crate) struct Counts {
    /// How many DELEs marked a message.
    pub deles: u64,
    /// How many RSETs came.
    pub resets: u64,
    /// How many RETRs began to send a message.
    pub retrs: u64,
    /// The octets of these messages, of each as often as it was sent.
    pub retr_octets: u64,
    /// How many TOPs began to send the top of a message.
    pub tops: u64,
    /// The octets of these messages, whole.
    pub top_octets: u64,
    /// How many DELEs, RETRs and TOPs a rule denied.
    pub denials: u64,
}

impl Counts {
    /// No command came.
    pub fn none() -> Counts
        ensures { result ≡ no_counts }
    {
        Counts {
            deles: 0,
            resets: 0,
            retrs: 0,
            retr_octets: 0,
            tops: 0,
            top_octets: 0,
            denials: 0,
        }
    }

    /// A DELE marked a message.
    pub fn add_dele(&mut self)
        ensures { self.new ≡ with_dele self.old }
    {
        self.deles = self.deles.saturating_add(1);
    }

    /// A RSET came.
    pub fn add_reset(&mut self)
        ensures { self.new ≡ with_reset self.old }
    {
        self.resets = self.resets.saturating_add(1);
    }

    /// A RETR began to send a message of so many octets.
    pub fn add_retr(&mut self, octets: u64)
        ensures { self.new ≡ with_retr octets self.old }
    {
        self.retrs = self.retrs.saturating_add(1);
        self.retr_octets = self.retr_octets.saturating_add(octets);
    }

    /// A TOP began to send the top of a message of so many octets.
    pub fn add_top(&mut self, octets: u64)
        ensures { self.new ≡ with_top octets self.old }
    {
        self.tops = self.tops.saturating_add(1);
        self.top_octets = self.top_octets.saturating_add(octets);
    }

    /// A rule denied a command.
    pub fn add_denial(&mut self)
        ensures { self.new ≡ with_denial self.old }
    {
        self.denials = self.denials.saturating_add(1);
    }

    /// What was read, as values of a line.
    fn reads_text(&self, alloc: Global) -> Result<String, AllocError>
        ensures { IfOk result (λ text. string_bytes text ≡ reads_text self.now) }
    {
        let text = format!(in alloc;
            " retr={}/{} top={}/{}",
            self.retrs, self.retr_octets, self.tops, self.top_octets
        )?;
        Ok(text)
    }

    /// All of them, as values of a line. Its error is want of memory.
    pub fn text(&self, alloc: Global) -> Result<String, AllocError>
        ensures { IfOk result (λ text. string_bytes text ≡ counts_text self.now) }
    {
        let reads = self.reads_text(alloc)?;
        let text = format!(in alloc;
            " dele={} rset={}{reads} denied={}",
            self.deles, self.resets, self.denials
        )?;
        Ok(text)
    }
}
