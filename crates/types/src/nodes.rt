// How many inner types a tag has.
ghost use Rattle.parts.specs.Numbers.{tag_number};
ghost use Rattle.types.specs.Nodes.{Inner};

use parts::tags::Tag;

// How many inner types a node of a tag has.
pub fn inner_types(tag: Tag) -> usize
    ensures { Inner (tag_number tag) result }
{
    image::types::inner_types(tag)
}
