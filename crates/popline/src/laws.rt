//! Theorems about the definitions. Each is the contract of a function with an empty body.

ghost use Rattle.popline.specs.Cutting.{CutsAnyPieces};
ghost use Rattle.popline.specs.Spelling.{ReadsWhatIsSpelled, SpellsWhatIsRead, NamesTheFault};
ghost use Rattle.popline.specs.ReplyForm.{FormOfReplies, TimestampsDiffer};

/// In whatever pieces a stream comes, the cutter gives the lines of the joined pieces.
pub fn cuts_any_pieces()
    ensures { CutsAnyPieces }
{}

/// A line that spells a command is read as that command.
pub fn reads_what_is_spelled()
    ensures { ReadsWhatIsSpelled }
{}

/// A line that is read as a command spells that command.
pub fn spells_what_is_read()
    ensures { SpellsWhatIsRead }
{}

/// A line with a fault spells no command. The fault is `Unknown` if the first word is no
/// keyword, else `Syntax` of that keyword.
pub fn names_the_fault()
    ensures { NamesTheFault }
{}

/// Every reply begins with `+OK` or `-ERR`, and its first line has at most 512 octets. Only the
/// text of `InUse` begins with `[`.
pub fn form_of_replies()
    ensures { FormOfReplies }
{}

/// Two greetings with different connection numbers or boot numbers have different timestamps.
pub fn timestamps_differ()
    ensures { TimestampsDiffer }
{}
