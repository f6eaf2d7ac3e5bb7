// What the survivors name is marked, and every marked entry is followed.
ghost use Rattle.std.specs.Prelude.{◌≡◌, not, ◌&&◌, ◌≤◌, ◌<◌, length};
ghost use Rattle.rules.specs.Reached.{has};
ghost use Rattle.reached.specs.Marks.{Open, ReachedIn};

use crate::decls::{mark_entry, mark_survivors};
use crate::{MOST, Reached};
use parts::handles::Image;

// Whether an id is marked and not yet followed.
#[tactic(auto, unfolding(rules::specs::Reached::has))]
fn is_open(marks: &[bool], followed: &[bool], id: usize) -> bool
    requires { (id < length marks.now) × (id < length followed.now) }
    ensures { result ≡ (has marks.now id && not (has followed.now id)) }
{
    marks[id] && !followed[id]
}

// The least such id below n.
#[tactic(auto, using(crate::proofs::Followed::searched))]
fn next_open(marks: &[bool], followed: &[bool], n: usize) -> Option<usize>
    requires { (n ≤ length marks.now) × (n ≤ length followed.now) }
    ensures { Open marks.now followed.now n result }
{
    for id in 0..n {
        if is_open(marks, followed, id) {
            return Some(id);
        }
    }
    None
}

// The ids that are reached in an accepted image: one marked entry a turn is followed, each once.
#[tactic(auto, using(crate::proofs::Followed::followed))]
pub fn reached(image: Image<'_>) -> Reached
    ensures { ReachedIn image.entry result }
{
    let count = image.entry_count();
    let mut marks = [false; MOST];
    mark_survivors(image, &mut marks);
    let mut followed = [false; MOST];
    while let Some(id) = next_open(&marks, &followed, count) {
        followed[id] = true;
        mark_entry(image, id as u32, &mut marks);
    }
    Reached { marks, count }
}

// No ids: for the verdict of document 01, in which nothing is followed.
pub fn nothing() -> Reached
    ensures { result.count ≡ 0 }
{
    Reached {
        marks: [false; MOST],
        count: 0,
    }
}
