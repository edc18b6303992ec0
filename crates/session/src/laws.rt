//! Laws of views and marks.
ghost use Rattle.session.specs.Laws.{MarksAreAskedByNumber};

/// Two lists of marks that mark the same numbers give the same listing, the same removals and the
/// same denial of a view.
pub fn marks_are_asked_by_number()
    ensures { MarksAreAskedByNumber }
{}
