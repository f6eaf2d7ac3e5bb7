// The bodies of declarations, by their kinds.
ghost use Rattle.image.specs.Numbers.{kind_number};
ghost use Rattle.members.specs.Bodies.{DeclBody, ShapeOf};

use crate::handles::Body;
use crate::kinds::items_of;
use parts::Shape;
use parts::handles::Decl;
use parts::kinds::Kind;

// The shape of the items of a kind, if it has any.
#[tactic(auto, unfolding(image::specs::Kinds::kind_of, parts::specs::Promise::shape_by))]
fn shape_of(kind: Kind) -> Option<Shape>
    ensures { ShapeOf (kind_number kind) result }
{
    match kind {
        Kind::Message => Some(Shape::Field),
        Kind::Enum | Kind::Flags => Some(Shape::Bare),
        Kind::Union => Some(Shape::Variant),
        _ => None,
    }
}

// The body of a declaration, if it is of a kind that has items.
pub fn body_of(decl: Decl<'_>) -> Option<Body<'_>>
    ensures { DeclBody decl.entry result }
{
    let shape = shape_of(decl.kind())?;
    Some(Body {
        items: items_of(decl, shape),
    })
}
