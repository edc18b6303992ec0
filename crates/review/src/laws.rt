//! What the questions of a review promise of every policy. A law is a function with nothing to do:
//! its contract says it.
ghost use Rattle.review.specs.Escape.{NoMarkup};
ghost use Rattle.review.specs.Names.{NamesAreTold};
ghost use Rattle.review.specs.Questions.{AsksThePolicy, OthersAreAlike};
ghost use Rattle.review.specs.Review.{ToldOnce};

/// About a clerk, a maildrop and a class that are named, a review's answers are the policy's
/// decisions.
pub fn asks_the_policy()
    ensures { AsksThePolicy }
{}

/// A clerk, a maildrop or a class that a policy doesn't name is decided as all others are that it
/// doesn't name: the line `(others)` speaks of each of them.
pub fn others_are_alike()
    ensures { OthersAreAlike }
{}

/// A review has a label for each name that either policy names, and for no other.
pub fn names_are_told()
    ensures { NamesAreTold }
{}

/// A review asks each of its questions once, and tells each difference once: whatever the policies,
/// the store's names and the choice are.
pub fn told_once()
    ensures { ToldOnce }
{}

/// Whatever the policy's text is, nothing of it can begin or end a tag of the page, or the value of
/// an attribute: in it there is no `<`, `>`, `"` or `'`.
pub fn text_has_no_markup()
    ensures { NoMarkup }
{}
