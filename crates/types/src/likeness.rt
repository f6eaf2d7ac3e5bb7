// How alike two types are: the three answers of the comparison, of a node, of two parts together, and read as yes or no.
ghost use Rattle.std.specs.Prelude.{true, ◌≡◌};
ghost use Rattle.parts.specs.Numbers.{tag_number};
ghost use Rattle.rules.specs.Types.{vector};
ghost use Rattle.rules.specs.Mended.{likeness_by, read_as};
ghost use Rattle.types.specs.Likeness.{likeness_of, joint};

use parts::tags::Tag;

// From the nearest to the farthest, so that the larger one is that of two parts together.
#[derive(Clone, Copy, Debug, PartialEq, Eq, PartialOrd, Ord)]
pub enum Likeness {
    Equal,
    // Equal but for containing vectors, quaternions or matrices.
    Alike,
    Different,
}

// Two nodes that are the same but for their inner types, by their tag.
#[tactic(auto, unfolding(rules::specs::Types::vector, rules::specs::Mended::likeness_by, crate::specs::Likeness::likeness_of))]
pub(crate) fn of_tag(tag: Tag) -> Likeness
    ensures { likeness_of result ≡ likeness_by true (vector (tag_number tag)) }
{
    match tag {
        Tag::Vec2 | Tag::Vec3 | Tag::Vec4 | Tag::Quat | Tag::Mat3 | Tag::Mat4 => Likeness::Alike,
        _ => Likeness::Equal,
    }
}

// Two parts together.
#[tactic(auto, unfolding(crate::specs::Likeness::joint, crate::specs::Likeness::likeness_of))]
pub(crate) fn joined(first: Likeness, rest: Likeness) -> Likeness
    ensures { likeness_of result ≡ joint (likeness_of first) (likeness_of rest) }
{
    first.max(rest)
}

// Whether types are read as equal; `third` says how the third answer is read.
#[tactic(auto, unfolding(rules::specs::Mended::read_as, crate::specs::Likeness::likeness_of))]
pub fn read_as(third: bool, likeness: Likeness) -> bool
    ensures { result ≡ read_as third (likeness_of likeness) }
{
    match likeness {
        Likeness::Equal => true,
        Likeness::Alike => third,
        Likeness::Different => false,
    }
}
