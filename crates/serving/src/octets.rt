//! Parts of octets.
ghost use Rattle.std.specs.Prelude.{◌≡◌, drop, take};

/// The octets from a place on; none if it lies after their end.
pub(crate) fn rest_of(octets: &[u8], at: usize) -> &[u8]
    ensures { result.now ≡ drop at octets.now }
{
    if at > octets.len() {
        return &[];
    }
    &octets[at..]
}

/// At most so many octets from a place on.
pub(crate) fn part_of(octets: &[u8], at: usize, most: usize) -> &[u8]
    ensures { result.now ≡ take most (drop at octets.now) }
{
    let rest = rest_of(octets, at);
    &rest[..rest.len().min(most)]
}
