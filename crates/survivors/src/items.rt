// Fields, variants, bits and tombstones by their numbers, at their places in any bytes: "The same holds for ordinals and bits inside one body
// or variant." Items have no fixed size, so all searches pass from the front.
ghost use Rattle.std.specs.Prelude.{◌≡◌, ltb};
ghost use Rattle.std.specs.Option.{option_map, is_some};
ghost use Rattle.maps.specs.Keyed.{lookup};
ghost use Rattle.maps.specs.Walk.{past};
ghost use Rattle.parts.specs.Promise.{ordinal_in};
ghost use Rattle.survivors.specs.Items.{nearer_ordinal, place_map, ItemSurvives, ItemFollows};

use members::items::ordinal_at;
use members::places::Places;

// The place of the item that stands under an ordinal, the last one listed.
#[tactic(auto, using(crate::proofs::Laws::Passed::founds))]
pub fn survivor_item(places: Places<'_>, ordinal: u32) -> Option<usize>
    ensures { ItemSurvives places.entry ordinal result }
{
    let mut found = None;
    for at in places {
        if ordinal_at(places.bytes, at) == ordinal {
            found = Some(at);
        }
    }
    found
}

// Whether an item stands under an ordinal: it does if any is listed, so the search stops at the first.
#[tactic(auto, using(crate::proofs::Laws::Passed::havings))]
pub fn has_item(places: Places<'_>, ordinal: u32) -> bool
    ensures { result ≡ is_some (lookup (ordinal_in places.entry.bytes.now) ltb ordinal (place_map places.entry)) }
{
    for at in places {
        if ordinal_at(places.bytes, at) == ordinal {
            return true;
        }
    }
    false
}

// Whether an ordinal is past a bound: every ordinal is past none.
#[tactic(auto, unfolding(maps::specs::Walk::past))]
fn is_past(after: Option<u32>, ordinal: u32) -> bool
    ensures { result ≡ past ltb after ordinal }
{
    let Some(bound) = after else {
        return true;
    };
    bound < ordinal
}

// Whether an item with an ordinal takes the place of the best one so far: the ordinal is past `after`, and the best one's is not before it.
fn is_nearer(after: Option<u32>, best: Option<(u32, usize)>, ordinal: u32) -> bool
    ensures { result ≡ nearer_ordinal after (option_map (λ b. b.0) best) ordinal }
{
    let Some((least, _)) = best else {
        return is_past(after, ordinal);
    };
    ordinal <= least && is_past(after, ordinal)
}

// The least ordinal past `after` under which an item stands, from the start if that is none, with the item's place.
#[tactic(auto, using(crate::proofs::Laws::Passed::nearings))]
pub fn next_item(places: Places<'_>, after: Option<u32>) -> Option<(u32, usize)>
    ensures { ItemFollows places.entry after result }
{
    let mut best = None;
    for at in places {
        let ordinal = ordinal_at(places.bytes, at);
        if is_nearer(after, best, ordinal) {
            best = Some((ordinal, at));
        }
    }
    best
}
