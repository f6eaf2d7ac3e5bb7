// Declarations by their kinds, each with what it holds.
ghost use Rattle.std.specs.Prelude.{◌≡◌};
ghost use Rattle.image.specs.Codes.{number, message_kind, enum_kind, flags_kind, union_kind, newtype_kind};
ghost use Rattle.parts.specs.declared.Shape.{Shape};
ghost use Rattle.parts.specs.Promise.{items_in};
ghost use Rattle.parts.specs.Handles.{decl_of, tree_of};
ghost use Rattle.members.specs.Handles.{ItemsAt, HoldsItems};

use crate::handles::Items;
use crate::items::decl_items;
use parts::Shape;
use parts::handles::{Decl, TypeRef};
use parts::kinds::Kind;

#[derive(Clone, Copy)]
pub struct Message<'a> {
    pub decl: Decl<'a>,
    pub ghost is: { (decl_of decl).kind ≡ number message_kind },
}

#[derive(Clone, Copy)]
pub struct Enum<'a> {
    pub decl: Decl<'a>,
    pub ghost is: { (decl_of decl).kind ≡ number enum_kind },
}

#[derive(Clone, Copy)]
pub struct Flags<'a> {
    pub decl: Decl<'a>,
    pub ghost is: { (decl_of decl).kind ≡ number flags_kind },
}

#[derive(Clone, Copy)]
pub struct Union<'a> {
    pub decl: Decl<'a>,
    pub ghost is: { (decl_of decl).kind ≡ number union_kind },
}

#[derive(Clone, Copy)]
pub struct Newtype<'a> {
    pub decl: Decl<'a>,
    pub ghost is: { (decl_of decl).kind ≡ number newtype_kind },
}

// The items of a declaration that holds items of a shape.
#[tactic(auto, using(crate::proofs::Runs::held))]
pub(crate) fn items_of<'a>(decl: Decl<'a>, shape: Shape) -> Items<'a>
    requires { HoldsItems shape decl }
    ensures { ItemsAt decl.entry.image shape (items_in decl.entry.image.bytes.now decl.entry.at) result }
{
    Items {
        image: decl.image,
        shape,
        run: decl_items(decl.image.bytes, decl.at),
    }
}

impl<'a> Message<'a> {
    #[tactic(auto, using(crate::proofs::Runs::message_holds))]
    pub fn fields(self) -> Items<'a>
        ensures { ItemsAt self.entry.decl.image Shape.Field (items_in self.entry.decl.image.bytes.now self.entry.decl.at) result }
    {
        let message = self.decl;
        items_of(message, Shape::Field)
    }
}

impl<'a> Enum<'a> {
    #[tactic(auto, using(crate::proofs::Runs::enum_holds))]
    pub fn variants(self) -> Items<'a>
        ensures { ItemsAt self.entry.decl.image Shape.Bare (items_in self.entry.decl.image.bytes.now self.entry.decl.at) result }
    {
        let enumeration = self.decl;
        items_of(enumeration, Shape::Bare)
    }
}

impl<'a> Flags<'a> {
    #[tactic(auto, using(crate::proofs::Runs::flags_hold))]
    pub fn bits(self) -> Items<'a>
        ensures { ItemsAt self.entry.decl.image Shape.Bare (items_in self.entry.decl.image.bytes.now self.entry.decl.at) result }
    {
        let flags = self.decl;
        items_of(flags, Shape::Bare)
    }
}

impl<'a> Union<'a> {
    #[tactic(auto, using(crate::proofs::Runs::union_holds))]
    pub fn variants(self) -> Items<'a>
        ensures { ItemsAt self.entry.decl.image Shape.Variant (items_in self.entry.decl.image.bytes.now self.entry.decl.at) result }
    {
        let union = self.decl;
        items_of(union, Shape::Variant)
    }
}

impl<'a> Newtype<'a> {
    // Its type.
    pub fn inner(self) -> TypeRef<'a>
        ensures image { result.image ≡ self.entry.decl.image }
        ensures left { result.left ≡ 32 }
        ensures tree { tree_of result ≡ (decl_of self.entry.decl).inner }
    {
        let decl = self.decl;
        decl.inner_type()
    }
}

// A declaration by its kind, where that is one whose contents are compared.
#[derive(Clone, Copy)]
pub enum ByKind<'a> {
    Message(Message<'a>),
    Enum(Enum<'a>),
    Flags(Flags<'a>),
    Union(Union<'a>),
    Newtype(Newtype<'a>),
    Silent,
}

impl<'a> ByKind<'a> {
    ghost use Rattle.members.specs.Kinds.{Sorted};

    #[tactic(auto, unfolding(crate::specs::Kinds::Sorted))]
    pub fn of(decl: Decl<'a>) -> ByKind<'a>
        ensures { Sorted decl.entry result }
    {
        match decl.kind() {
            Kind::Message => ByKind::Message(Message { decl }),
            Kind::Enum => ByKind::Enum(Enum { decl }),
            Kind::Flags => ByKind::Flags(Flags { decl }),
            Kind::Union => ByKind::Union(Union { decl }),
            Kind::Newtype => ByKind::Newtype(Newtype { decl }),
            _ => ByKind::Silent,
        }
    }
}
