//! How far a trail is kept when a clause comes to a search that goes on: so that two of its literals are not
//! false, where a decision stands. A search that lists many models is so spared most of each descent.
ghost use Rattle.std.specs.Prelude.{◌≡◌, ◌<◌, ◌≤◌, length, slice_index};

use assignment_trail::Assignment;
use lrat_model::Lit;

/// How many literals of the trail may stay so that two literals of a clause are not false. O(its literals).
pub fn free_up_to(assignment: &Assignment, clause: &[Lit]) -> usize {
    let mut first = 0;
    let mut second = 0;
    for m in clause {
        let place = false_from(assignment.trail(), assignment.places(), *m);
        if place > first {
            second = first;
            first = place;
        } else if place > second {
            second = place;
        }
    }
    second
}

/// The place on the trail from which on a literal is false, the length of the trail where it is not.
fn false_from(trail: &[Lit], places: &[usize], m: Lit) -> usize {
    let Some(place) = places.get(m.variable() as usize) else {
        return trail.len();
    };
    match trail.get(*place) {
        Some(l) => {
            if l.same(m.negated()) {
                *place
            } else {
                trail.len()
            }
        }
        None => trail.len(),
    }
}

/// The place of the last decision up to this place, the length of the trail where there is none, or where the
/// trail ends before.
pub fn decision_up_to(reasons: &[u64], place: usize) -> usize
    ensures bound { result ≤ length reasons.now }
    ensures decision { result < length reasons.now → slice_index reasons.now result ≡ 0 }
{
    if place >= reasons.len() {
        return reasons.len();
    }
    let mut left = place + 1;
    while left > 0 {
        left -= 1;
        if reasons[left] == 0 {
            return left;
        }
    }
    reasons.len()
}
