// Head, contents, ids and namespace, and the bodies that the contents place.
ghost use Rattle.std.specs.Prelude.{◌≡◌, true, ◌+◌, ◌*◌, ◌≤◌, ◌<◌, length};
ghost use Rattle.image.specs.Image.{format, entry_count, id_count, segment_count, entry_offset, entry_length};
ghost use Rattle.image.specs.Image.{head_of, tables_of, laid, entry_of, entries_of, read_image};
ghost use Rattle.image.specs.Numbers.{format_number};
ghost use Rattle.image.specs.Reads.{read_of, skip};

use crate::bodies::read_body;
use image::Read;
use image::formats::Format;
use image::names::read_names;
use image::numbers::u16_at;
use image::refusals::Refusal;

// The head of an image: its first eight bytes are there. Of the contents behind it that is asked for each pair.
#[derive(Clone, Copy)]
pub struct Head<'a> {
    pub bytes: &'a [u8],
    pub ghost whole: { 8 ≤ length bytes.now },
}

impl Head<'_> {
    // Its format.
    #[tactic(auto, unfolding(image::specs::Image::u16_at, image::specs::Image::format))]
    pub fn format(self) -> usize
        ensures { (result ≡ format self.entry.bytes.now) × (result < 65536) }
    {
        u16_at(self.bytes, 0)
    }

    // Its count of registry entries.
    #[tactic(auto, unfolding(image::specs::Image::u16_at, image::specs::Image::entry_count))]
    pub fn entry_count(self) -> usize
        ensures { (result ≡ entry_count self.entry.bytes.now) × (result < 65536) }
    {
        u16_at(self.bytes, 2)
    }

    // Its count of declaration ids.
    #[tactic(auto, unfolding(image::specs::Image::u16_at, image::specs::Image::id_count))]
    pub fn id_count(self) -> usize
        ensures { (result ≡ id_count self.entry.bytes.now) × (result < 65536) }
    {
        u16_at(self.bytes, 4)
    }

    // Its count of namespace segments.
    #[tactic(auto, unfolding(image::specs::Image::u16_at, image::specs::Image::segment_count))]
    pub fn segment_count(self) -> usize
        ensures { (result ≡ segment_count self.entry.bytes.now) × (result < 65536) }
    {
        u16_at(self.bytes, 6)
    }

    // Where the body of the i-th entry starts, as the contents after it say.
    #[tactic(auto, unfolding(image::specs::Image::u16_at, image::specs::Image::entry_offset))]
    pub fn entry_offset(self, i: usize) -> usize
        requires { 8 + 4 * i + 4 ≤ length self.bytes.now }
        ensures { (result ≡ entry_offset self.entry.bytes.now i) × (result < 65536) }
    {
        u16_at(self.bytes, 8 + 4 * i)
    }

    // And how long it is.
    #[tactic(auto, unfolding(image::specs::Image::u16_at, image::specs::Image::entry_length))]
    pub fn entry_length(self, i: usize) -> usize
        requires { 8 + 4 * i + 4 ≤ length self.bytes.now }
        ensures { (result ≡ entry_length self.entry.bytes.now i) × (result < 65536) }
    {
        u16_at(self.bytes, 10 + 4 * i)
    }
}

// The head: its length, its format and its counts.
#[tactic(auto, using(crate::proofs::Laws::Contents::heads))]
fn read_head(s: &[u8]) -> Read
    ensures { read_of result ≡ skip (head_of s.now) }
{
    if 32768 < s.len() {
        return Err(Refusal::Long);
    }
    if s.len() < 8 {
        return Err(Refusal::ShortHead);
    }
    let head = Head { bytes: s };
    let _known = Format::try_from(head.format())?;
    if 512 < head.entry_count() {
        return Err(Refusal::Crowded);
    }
    if 512 < head.id_count() {
        return Err(Refusal::Crowded);
    }
    if 16 < head.segment_count() {
        return Err(Refusal::Crowded);
    }
    Ok(8)
}

// The contents and the ids are there.
#[tactic(auto, using(crate::proofs::Laws::Contents::tables))]
fn read_tables(head: Head<'_>) -> Read
    ensures { read_of result ≡ skip (tables_of head.entry.bytes.now) }
{
    let end = 8 + 4 * head.entry_count() + 4 * head.id_count();
    if head.bytes.len() < end {
        return Err(Refusal::ShortHead);
    }
    Ok(end)
}

// Whether the bodies of the n entries lie without gaps from a position to the end.
#[tactic(auto, using(crate::proofs::Laws::Contents::layouts))]
fn is_laid(head: Head<'_>, n: usize, from: usize) -> bool
    requires { (8 + 4 * n ≤ length head.bytes.now) × (from ≤ length head.bytes.now) }
    ensures { result ≡ laid n head.entry.bytes.now 0 from }
{
    let mut at = from;
    for i in 0..n {
        let offset = head.entry_offset(i);
        let len = head.entry_length(i);
        if len == 0 {
            if offset != 0 {
                return false;
            }
        } else {
            if offset != at {
                return false;
            }
            if head.bytes.len() - at < len {
                return false;
            }
            at += len;
        }
    }
    at == head.bytes.len()
}

// The body of an entry, if it has one, in a format.
#[tactic(auto, using(crate::proofs::Laws::Contents::entries))]
fn read_entry(format: Format, head: Head<'_>, i: usize) -> Read
    requires { (8 + 4 * i + 4 ≤ length head.bytes.now) × (entry_offset head.bytes.now i + entry_length head.bytes.now i ≤ length head.bytes.now) }
    ensures { read_of result ≡ skip (entry_of (format_number format) head.entry.bytes.now i) }
{
    let len = head.entry_length(i);
    if len == 0 {
        return Ok(0);
    }
    let offset = head.entry_offset(i);
    let end = offset + len;
    read_body(format, &head.bytes[offset..end])
}

// The bodies of the n entries, which lie without gaps from a position on.
fn read_entries(format: Format, head: Head<'_>, n: usize, from: usize) -> Read
    requires { (8 + 4 * n ≤ length head.bytes.now) × (laid n head.bytes.now 0 from ≡ true) }
    ensures { read_of result ≡ skip (entries_of (format_number format) n head.entry.bytes.now 0) }
{
    for i in 0..n {
        let step = read_entry(format, head, i);
        let Ok(_) = step else {
            return step;
        };
    }
    Ok(head.bytes.len())
}

// A whole image.
pub(crate) fn read_whole(s: &[u8]) -> Read
    ensures { read_of result ≡ skip (read_image s.now) }
{
    let start = read_head(s);
    let Ok(_) = start else {
        return start;
    };
    let head = Head { bytes: s };
    let tables = read_tables(head);
    let Ok(names_at) = tables else {
        return tables;
    };
    let names = read_names(s, names_at, head.segment_count(), Refusal::ShortHead);
    let Ok(bodies_at) = names else {
        return names;
    };
    let n = head.entry_count();
    if !is_laid(head, n, bodies_at) {
        return Err(Refusal::Contents);
    }
    read_entries(Format::of(head.format()), head, n, bodies_at)
}
