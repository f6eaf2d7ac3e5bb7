// The items that stand, as values: what the searches by place find, in an accepted image.
ghost use Rattle.survivors.specs.Answers.{StandsUnder, StandsIn};

use crate::items::{next_item, survivor_item};
use members::handles::{Item, Items};

// The item that stands under an ordinal.
#[tactic(auto, using(crate::proofs::Laws::Stepping::standing))]
pub fn standing_item(items: Items<'_>, ordinal: u32) -> Option<Item<'_>>
    ensures { StandsUnder items.entry ordinal result }
{
    let at = survivor_item(items.places(), ordinal)?;
    Some(Item {
        image: items.image,
        shape: items.shape,
        at,
    })
}

// The items that stand, by rising ordinal: those past `after`, from the start if that is none.
#[derive(Clone, Copy)]
pub struct StandingItems<'a> {
    pub items: Items<'a>,
    pub after: Option<u32>,
}

// The items that stand among these.
pub fn standing_items(items: Items<'_>) -> StandingItems<'_>
    ensures { StandsIn items.entry result }
{
    StandingItems { items, after: None }
}

impl<'a> Iterator for StandingItems<'a> {
    type Item = Item<'a>;

    ghost use Rattle.std.specs.Iterator.{at_most};
    ghost use Rattle.survivors.specs.Answers.{items_left, NextItem};

    ghost next_gives = { NextItem };

    ghost remaining = { λ x. at_most (items_left x.items x.after) };

    #[tactic(auto, using(crate::proofs::Laws::Stepping::stepping))]
    fn next(&mut self) -> Option<Item<'a>> {
        let items = self.items;
        let (ordinal, at) = next_item(items.places(), self.after)?;
        self.after = Some(ordinal);
        Some(Item {
            image: items.image,
            shape: items.shape,
            at,
        })
    }
}
