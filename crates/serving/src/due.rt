//! Which links are read between two waits.
ghost use Rattle.std.specs.Prelude.{◌≡◌, ◌≤◌, count_by, map, filter};
ghost use Rattle.serving.specs.Due.{presses, most_due as most_due_of, before, waiting_turns};
ghost use Rattle.serving.specs.Due.{chosen, chosen_of, NobodyIsPassedOver};
ghost use Rattle.serving.specs.Due.{NoMoreThanAFourth};

use crate::sockets::Place;
use arrayvec::ArrayVec;

/// If so many links press or fewer, four of them are read between two waits.
const FEW: usize = 20;

/// The same for eight; if more press, all are read, since each wait costs a look at every link.
const SOME: usize = 40;

/// How many links are read between two waits, while so many press: few, so that what comes
/// meanwhile is seen soon.
pub(crate) fn most_due(pressing: usize) -> usize
    ensures { result ≡ most_due_of pressing }
{
    if pressing <= FEW {
        return 4;
    }
    if pressing <= SOME { 8 } else { 160 }
}

/// How many links press.
fn pressing_among(places: &[Place]) -> usize
    ensures { result ≡ count_by presses places.now }
{
    places.iter().filter(|place| place.is_pressing()).count()
}

/// The last turns of the links that press.
fn pressing_turns(places: &[Place]) -> ArrayVec<u64, SOME>
    requires { count_by presses places.now ≤ 40 }
    ensures { result.items ≡ map (λ p. p.turn) (filter presses places.now) }
{
    let mut turns = ArrayVec::new();
    for place in places {
        if place.is_pressing() {
            turns.push(place.turn);
        }
    }
    turns
}

/// The last turns of the links that press; none if more press than are chosen from.
fn turns_of(places: &[Place], pressing: usize) -> ArrayVec<u64, SOME>
    requires { pressing ≡ count_by presses places.now }
    ensures { result.items ≡ waiting_turns places.now }
{
    if pressing <= SOME {
        return pressing_turns(places);
    }
    ArrayVec::new()
}

/// How many of these turns were before that one.
pub(crate) fn before(turn: u64, turns: &[u64]) -> usize
    ensures { result ≡ before turn turns.now }
{
    turns.iter().filter(|other| **other < turn).count()
}

/// Chooses among the places: a link that is due gets its turn after so many.
fn choose_all(places: &mut [Place], turns: u64, most: usize, waiting: &[u64])
    ensures { places.new ≡ map (chosen turns most waiting.now) places.old }
{
    for place in places.iter_mut() {
        place.choose(turns, most, waiting);
    }
}

/// Chooses the links that may be read before the next wait: of those that press, the ones that wait
/// longest, and each whose other end has ended, so that its place is free soon. Their turns are
/// numbered from `turns` on.
pub(crate) fn choose(places: &mut [Place], turns: u64)
    ensures { places.new ≡ chosen_of turns places.old }
{
    let pressing = pressing_among(places);
    let waiting = turns_of(places, pressing);
    let most = most_due(pressing);
    choose_all(places, turns, most, waiting.as_slice());
}

/// A law: a wait that passes a link over puts at least four others behind it, so that no link is
/// passed over for ever.
pub fn nobody_is_passed_over()
    ensures each { NobodyIsPassedOver }
    ensures waits { NoMoreThanAFourth }
{}
