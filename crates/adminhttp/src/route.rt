//! The routes of the administration.

/// A route: a form of path, and the methods that are allowed on it.
#[derive(Clone, Copy, PartialEq, Eq, Debug)]
pub enum Route {
    /// `/maildrops`, by GET.
    Maildrops,
    /// `/maildrops/{m}`, by GET, PUT and DELETE.
    Maildrop,
    /// `/clerks`, by GET, if the administration was opened to answer it.
    Clerks,
    /// `/clerks/{c}`, by GET, PUT and DELETE.
    Clerk,
    /// `/policy`, by GET and PUT.
    Policy,
    /// `/groups`, by GET.
    Groups,
    /// `/sessions`, by GET.
    Sessions,
    /// `/sessions/{n}`, by DELETE.
    Session,
    /// `/explain/{clerk}/{maildrop}/{class}/{action}`, by GET.
    Explain,
}
