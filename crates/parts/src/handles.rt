// What stands in an accepted image, as values that know it: an image, a declaration, a type. Each is the bytes and a place in them, with the
// fact that it stands there, so that no function over them asks for it.
ghost use Rattle.std.specs.Prelude.{◌≡◌, ◌<◌, ◌≤◌, ◌-◌, length, get_or};
ghost use Rattle.std.specs.Iterator.{YieldsFirstBy, item_count};
ghost use Rattle.image.specs.Codes.{number, newtype_kind, sub_byte_tag, semantic_tag, named_tag, fixed_array_tag};
ghost use Rattle.image.specs.Numbers.{kind_number, tag_number, format_number};
ghost use Rattle.parts.specs.Promise.{Accepted, NamesIn, DeclHere, TypeHere, label_end};
ghost use Rattle.parts.specs.Props.{accepted_prop, names_prop, decl_prop, type_prop};

use crate::{Run, decls, names, types};
use image::formats::Format;
use image::kinds::Kind;
use image::numbers::u32_at;
use image::refusals::Refusal;
use image::tags::Tag;
use reader::contents::Head;

// An accepted image.
#[derive(Clone, Copy)]
pub struct Image<'a> {
    pub bytes: &'a [u8],
    pub ghost accepted: { Accepted bytes.now } by { accepted_prop bytes.now },
}

// Names, one after the other: it gives them in turn.
#[derive(Clone, Copy)]
pub struct Names<'a> {
    pub bytes: &'a [u8],
    pub run: Run,
    pub ghost here: { NamesIn bytes.now run } by { names_prop bytes.now run },
}

// A declaration in an image.
#[derive(Clone, Copy)]
pub struct Decl<'a> {
    pub image: Image<'a>,
    pub at: usize,
    pub ghost here: { DeclHere image.bytes.now at } by { decl_prop image.bytes.now at },
}

// A type in an image, of at most `left` nodes on a path.
#[derive(Clone, Copy)]
pub struct TypeRef<'a> {
    pub image: Image<'a>,
    pub at: usize,
    pub left: usize,
    pub ghost here: { TypeHere left image.bytes.now at } by { type_prop left image.bytes.now at },
}

impl<'a> Image<'a> {
    ghost use Rattle.parts.specs.Handles.{schema_in, names_of, Reads, Resolves};
    ghost use Rattle.parts.specs.Promise.{Resolved, BodyOf, segments_in};

    // The image that bytes are, or the first refusal.
    pub fn read(bytes: &'a [u8]) -> Result<Image<'a>, Refusal>
        ensures { Reads bytes.now result }
    {
        reader::read_image(bytes)?;
        Ok(Image { bytes })
    }

    // Its head.
    #[tactic(auto, using(crate::proofs::Laws::Contents::head_there))]
    fn head(self) -> Head<'a>
        ensures { result.bytes ≡ self.entry.bytes }
    {
        Head { bytes: self.bytes }
    }

    // The head's format.
    #[tactic(auto, using(crate::proofs::Laws::Contents::heads))]
    pub fn format(self) -> Format
        ensures { format_number result ≡ (schema_in self.entry).format }
    {
        Format::of(self.head().format())
    }

    // How many registry entries there are.
    #[tactic(auto, using(crate::proofs::Laws::Contents::heads))]
    pub fn entry_count(self) -> usize
        ensures { result ≡ length (schema_in self.entry).registry }
    {
        self.head().entry_count()
    }

    // How many declaration ids are listed.
    #[tactic(auto, using(crate::proofs::Laws::Contents::heads))]
    pub fn id_count(self) -> usize
        ensures { result ≡ length (schema_in self.entry).ids }
    {
        self.head().id_count()
    }

    // Where the namespace's names stand.
    #[tactic(auto, using(crate::proofs::Laws::Contents::heads, crate::proofs::Laws::Contents::segments_run))]
    pub fn segments(self) -> Run
        ensures { result ≡ segments_in self.entry.bytes.now }
    {
        let head = self.head();
        let n = head.entry_count();
        let m = head.id_count();
        Run {
            start: 8 + 4 * n + 4 * m,
            count: head.segment_count(),
        }
    }

    // The namespace.
    #[tactic(auto, using(crate::proofs::Named::namespaces))]
    pub fn namespace(self) -> Names<'a>
        ensures { names_of result ≡ (schema_in self.entry).namespace }
    {
        Names {
            bytes: self.bytes,
            run: self.segments(),
        }
    }

    // The k-th declaration id.
    #[tactic(auto, using(crate::proofs::Laws::Contents::ids))]
    pub fn id_at(self, k: usize) -> u32
        requires { k < length (schema_in self).ids }
        ensures { result ≡ get_or (schema_in self.entry).ids k 0 }
    {
        let ids = 8 + 4 * self.head().entry_count();
        u32_at(self.bytes, ids + 4 * k)
    }

    // The place of the declaration that an id stands for. "An id that is N or more, or whose entry is empty, is unresolvable".
    #[tactic(auto, using(crate::proofs::Laws::Contents::entries))]
    fn place(self, id: u32) -> Option<usize>
        ensures { Resolved self.entry.bytes.now id result }
    {
        let i = id as usize;
        let head = self.head();
        if head.entry_count() <= i {
            return None;
        }
        if head.entry_length(i) == 0 {
            return None;
        }
        Some(head.entry_offset(i))
    }

    // The declaration that an id stands for: an id that is out of the registry, or whose entry is empty, stands for none.
    pub fn entry(self, id: u32) -> Option<Decl<'a>>
        ensures { Resolves self.entry id result }
    {
        let at = self.place(id)?;
        Some(Decl { image: self, at })
    }

    // Where the body of an entry lies; no bytes, if the entry is empty.
    #[tactic(auto, using(crate::proofs::Laws::Bodies::bodies))]
    pub fn body(self, id: usize) -> Run
        requires { id < length (schema_in self).registry }
        ensures { BodyOf self.entry.bytes.now id result }
    {
        let head = self.head();
        Run {
            start: head.entry_offset(id),
            count: head.entry_length(id),
        }
    }
}

impl<'a> Iterator for Names<'a> {
    type Item = &'a [u8];

    ghost use Rattle.parts.specs.Handles.{names_of};

    ghost next_gives = { YieldsFirstBy (λ name. name.now) names_of };

    ghost remaining = { item_count names_of };

    #[tactic(auto, using(crate::proofs::Named::stepping))]
    fn next(&mut self) -> Option<&'a [u8]> {
        if self.run.count == 0 {
            return None;
        }
        let at = self.run.start;
        let rest = Run {
            start: names::name_end(self.bytes, at),
            count: self.run.count - 1,
        };
        let bytes = self.bytes;
        *self = Names { bytes, run: rest };
        Some(names::name_at(bytes, at))
    }
}

impl<'a> Decl<'a> {
    ghost use Rattle.parts.specs.Handles.{decl_of, tree_of};

    pub fn kind(self) -> Kind
        ensures { kind_number result ≡ (decl_of self.entry).kind }
    {
        decls::decl_kind(self.image.bytes, self.at)
    }

    // The bytes of the name; an impl's is empty.
    pub fn name(self) -> &'a [u8]
        ensures { result.now ≡ (decl_of self.entry).name }
    {
        decls::decl_name(self.image.bytes, self.at)
    }

    pub fn deprecated(self) -> bool
        ensures { result ≡ (decl_of self.entry).marks.deprecated }
    {
        decls::deprecated(self.image.bytes, self.at)
    }

    pub fn non_exhaustive(self) -> bool
        ensures { result ≡ (decl_of self.entry).marks.non_exhaustive }
    {
        decls::non_exhaustive(self.image.bytes, self.at)
    }

    // Of an enum in wire bits, of flags in wire bytes, where the format stores it.
    pub fn width(self) -> Option<u8>
        ensures { result ≡ (decl_of self.entry).width }
    {
        decls::width(self.image.bytes, self.at)
    }

    // The type of a newtype.
    #[tactic(auto, using(crate::proofs::Laws::Counted::inner_here, crate::proofs::Laws::Counted::inner_tree))]
    pub fn inner_type(self) -> TypeRef<'a>
        requires { (decl_of self).kind ≡ number newtype_kind }
        ensures image { result.image ≡ self.entry.image }
        ensures left { result.left ≡ 32 }
        ensures tree { tree_of result ≡ (decl_of self.entry).inner }
    {
        TypeRef {
            image: self.image,
            at: decls::inner_type(self.image.bytes, self.at),
            left: 32,
        }
    }
}

impl<'a> TypeRef<'a> {
    ghost use Rattle.parts.specs.Handles.{label_of, names_of, TypeAt};

    // The tag of its first node.
    #[tactic(auto, using(crate::proofs::Laws::Trees::type_label))]
    pub fn tag(self) -> Tag
        ensures { tag_number result ≡ (label_of self.entry).tag }
    {
        types::type_tag(self.image.bytes, self.at)
    }

    // The code of a primitive or a semantic type; of a sub-byte, whether it is signed.
    #[tactic(auto, using(crate::proofs::Laws::Trees::type_label))]
    pub fn code(self) -> u8
        requires { (label_of self).tag ≤ number semantic_tag }
        ensures { result ≡ (label_of self.entry).first }
    {
        types::type_code(self.image.bytes, self.at)
    }

    // The bits of a sub-byte.
    #[tactic(auto, using(crate::proofs::Laws::Trees::type_label))]
    pub fn bits(self) -> u8
        requires { (label_of self).tag ≡ number sub_byte_tag }
        ensures { result ≡ (label_of self.entry).second }
    {
        types::type_bits(self.image.bytes, self.at)
    }

    // The names of bits; nothing else has any.
    #[tactic(auto, using(crate::proofs::Laws::Trees::type_label, crate::proofs::Named::label_names))]
    pub fn names(self) -> Names<'a>
        ensures { names_of result ≡ (label_of self.entry).names }
    {
        let bytes = self.image.bytes;
        let at = self.at;
        let Tag::Bits = self.tag() else {
            let run = Run {
                start: at,
                count: 0,
            };
            return Names { bytes, run };
        };
        Names {
            bytes,
            run: types::bit_names(bytes, at),
        }
    }

    // The id of a named type.
    #[tactic(auto, using(crate::proofs::Laws::Trees::type_label))]
    pub fn id(self) -> u32
        requires { (label_of self).tag ≡ number named_tag }
        ensures { result ≡ (label_of self.entry).first }
    {
        types::type_id(self.image.bytes, self.at)
    }

    // The size of a fixed array.
    #[tactic(auto, using(crate::proofs::Laws::Trees::type_label))]
    pub fn size(self) -> u64
        requires { (label_of self).tag ≡ number fixed_array_tag }
        ensures { result ≡ (label_of self.entry).first }
    {
        types::type_size(self.image.bytes, self.at)
    }

    // Where the first inner type starts, or the place after the type if it has none.
    #[tactic(auto, using(crate::proofs::Laws::Trees::type_label))]
    pub fn label_end(self) -> usize
        ensures { result ≡ label_end self.entry.image.bytes.now self.entry.at }
    {
        types::label_end(self.image.bytes, self.at)
    }

    // An inner type, at the place where it starts.
    pub fn inner_at(self, at: usize) -> TypeRef<'a>
        requires { (0 < self.left) × TypeHere (self.left - 1) self.image.bytes.now at }
        ensures { TypeAt self.entry.image (self.entry.left - 1) at result }
    {
        TypeRef {
            image: self.image,
            at,
            left: self.left - 1,
        }
    }
}
