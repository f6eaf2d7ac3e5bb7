// The items of declarations, as values that know what they are: a run of items, an item, a field, a union's variant.
ghost use Rattle.std.specs.Prelude.{◌≡◌};
ghost use Rattle.parts.specs.declared.Shape.{Shape};
ghost use Rattle.parts.specs.Promise.{ItemsHere, tombstone_items, ItemHere, variant_items, ordinal_in, coding_of};
ghost use Rattle.parts.specs.Handles.{tree_of};
ghost use Rattle.members.specs.Props.{ClosedAfter, items_prop, item_prop, closed_prop};

use crate::places::Places;
use crate::{fields, items};
use parts::handles::{Image, TypeRef};
use parts::{Encoding, Run, Shape};

// So many items of a shape in an image, one after the other.
#[derive(Clone, Copy)]
pub struct Items<'a> {
    pub image: Image<'a>,
    pub shape: Shape,
    pub run: Run,
    pub ghost here: { ItemsHere shape image.bytes.now run.count run.start } by { items_prop shape image.bytes.now run.count run.start },
}

// Items, and the numbers that are struck off, which stand after them in a format that stores them: of a message, an enum, flags, a union, and a
// union's variant.
#[derive(Clone, Copy)]
pub struct Body<'a> {
    pub items: Items<'a>,
    pub ghost closed: { ClosedAfter items.image.bytes.now items.shape items.run } by { closed_prop items.image.bytes.now items.shape items.run },
}

// An item of a shape in an image.
#[derive(Clone, Copy)]
pub struct Item<'a> {
    pub image: Image<'a>,
    pub shape: Shape,
    pub at: usize,
    pub ghost here: { ItemHere shape image.bytes.now at } by { item_prop shape image.bytes.now at },
}

impl<'a> Items<'a> {
    ghost use Rattle.members.specs.Handles.{places_of};

    // Their places.
    pub fn places(self) -> Places<'a>
        ensures { result ≡ places_of self.entry }
    {
        Places {
            bytes: self.image.bytes,
            shape: self.shape,
            run: self.run,
        }
    }
}

impl<'a> Body<'a> {
    ghost use Rattle.members.specs.Handles.{ItemsAt, place_after};

    // The numbers that are struck off, as items.
    #[tactic(auto, using(crate::proofs::Closing::closes))]
    pub fn tombstones(self) -> Items<'a>
        ensures { ItemsAt self.entry.items.image Shape.Number (tombstone_items self.entry.items.image.bytes.now (place_after self.entry.items)) result }
    {
        let items = self.items;
        let bytes = items.image.bytes;
        let place = items::items_end(bytes, items.shape, items.run.start, items.run.count);
        Items {
            image: items.image,
            shape: Shape::Number,
            run: items::tombstone_items(bytes, place),
        }
    }
}

impl<'a> Item<'a> {
    ghost use Rattle.members.specs.Handles.{name_in};

    // Of flags it is the bit.
    #[tactic(auto, using(parts::proofs::Promise::item_number))]
    pub fn ordinal(self) -> u32
        ensures { result ≡ ordinal_in self.entry.image.bytes.now self.entry.at }
    {
        items::ordinal_at(self.image.bytes, self.at)
    }

    // A number that is struck off has none.
    #[tactic(auto, using(parts::proofs::Promise::item_bare), unfolding(crate::specs::Handles::name_in))]
    pub fn name(self) -> &'a [u8]
        ensures { result.now ≡ name_in self.entry }
    {
        match self.shape {
            Shape::Number => &[],
            Shape::Field | Shape::Bare | Shape::Variant => items::item_name(
                self.image.bytes,
                self.at,
            ),
        }
    }
}

// A field: of a message, or of a union's variant.
#[derive(Clone, Copy)]
pub struct Field<'a> {
    pub item: Item<'a>,
    pub ghost is: { item.shape ≡ Shape.Field },
}

// A variant of a union.
#[derive(Clone, Copy)]
pub struct Variant<'a> {
    pub item: Item<'a>,
    pub ghost is: { item.shape ≡ Shape.Variant },
}

impl<'a> Field<'a> {
    ghost use Rattle.members.specs.Handles.{field_of};

    #[tactic(auto, using(parts::proofs::Promise::field_ordinal))]
    pub fn ordinal(self) -> u32
        ensures { result ≡ (field_of self.entry).ordinal }
    {
        let item = self.item;
        item.ordinal()
    }

    #[tactic(auto, using(crate::proofs::Runs::field_named))]
    pub fn name(self) -> &'a [u8]
        ensures { result.now ≡ (field_of self.entry).name }
    {
        let item = self.item;
        item.name()
    }

    // Whether it is marked as deprecated.
    pub fn deprecated(self) -> bool
        ensures { result ≡ (field_of self.entry).marks.deprecated }
    {
        fields::field_deprecated(self.item.image.bytes, self.item.at)
    }

    pub fn encoding(self) -> Encoding
        ensures { coding_of result ≡ (field_of self.entry).encoding }
    {
        fields::field_encoding(self.item.image.bytes, self.item.at)
    }

    // The limit, if it has one.
    pub fn limit(self) -> Option<u64>
        ensures { result ≡ (field_of self.entry).limit }
    {
        fields::field_limit(self.item.image.bytes, self.item.at)
    }

    // The type.
    #[tactic(auto, using(parts::proofs::Promise::field_type_here, parts::proofs::Promise::field_type))]
    pub fn ty(self) -> TypeRef<'a>
        ensures image { result.image ≡ self.entry.item.image }
        ensures left { result.left ≡ 32 }
        ensures tree { tree_of result ≡ (field_of self.entry).type }
    {
        let item = self.item;
        TypeRef {
            image: item.image,
            at: fields::field_type(item.image.bytes, item.at),
            left: 32,
        }
    }
}

impl<'a> Variant<'a> {
    ghost use Rattle.members.specs.Handles.{ItemsAt, variant_of};

    #[tactic(auto, using(crate::proofs::Runs::variant_named))]
    pub fn name(self) -> &'a [u8]
        ensures { result.now ≡ (variant_of self.entry).name }
    {
        let variant = self.item;
        variant.name()
    }

    // Its fields, and the numbers that it strikes off.
    #[tactic(auto, using(crate::proofs::Closing::variant_body))]
    pub fn body(self) -> Body<'a>
        ensures { ItemsAt self.entry.item.image Shape.Field (variant_items self.entry.item.image.bytes.now self.entry.item.at) result.items }
    {
        Body {
            items: self.fields(),
        }
    }

    // Its fields.
    #[tactic(auto, using(crate::proofs::Runs::variant_fields))]
    pub fn fields(self) -> Items<'a>
        ensures { ItemsAt self.entry.item.image Shape.Field (variant_items self.entry.item.image.bytes.now self.entry.item.at) result }
    {
        let item = self.item;
        Items {
            image: item.image,
            shape: Shape::Field,
            run: items::variant_items(item.image.bytes, item.at),
        }
    }
}
