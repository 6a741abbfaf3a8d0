//! The elements of a picture, at the end of a text.
ghost use Rattle.std.specs.Prelude.{◌≡◌, ◌++◌, ◌∷◌, [], codes, IsTrue, OnOk};
ghost use Rattle.std.specs.Fmt.{decimal};
ghost use Rattle.std.specs.String.{string_bytes};
ghost use Rattle.pci_picture.specs.Xml.{attribute};
ghost use Rattle.pci_picture.specs.Elements.{escaped_byte, escaped, number_attribute, text_attribute, frame_attributes, rect_attributes, title_element, box_text, place_attributes, words_text, faint_text, axis_words, axis_text, tick_text, gap_text};

use std::alloc::{AllocError, Allocator};

/// Where a rectangle stands, in SVG's own units.
#[derive(Clone, Copy)]
pub struct Frame {
    pub x: u64,
    pub y: u64,
    pub width: u64,
    pub height: u64,
}

/// 0 for each byte that a picture shows as itself, else 1.
static MARKS: [u8; 256] = [
    1, 1, 1, 1, 1, 1, 1, 1, 1, 1, 0, 1, 1, 1, 1, 1, 1, 1, 1, 1, 1, 1, 1, 1, 1, 1, 1, 1, 1, 1, 1, 1,
    0, 0, 1, 0, 0, 0, 1, 1, 0, 0, 0, 0, 0, 0, 0, 0, 0, 0, 0, 0, 0, 0, 0, 0, 0, 0, 0, 0, 1, 0, 1, 0,
    0, 0, 0, 0, 0, 0, 0, 0, 0, 0, 0, 0, 0, 0, 0, 0, 0, 0, 0, 0, 0, 0, 0, 0, 0, 0, 0, 0, 0, 0, 0, 0,
    0, 0, 0, 0, 0, 0, 0, 0, 0, 0, 0, 0, 0, 0, 0, 0, 0, 0, 0, 0, 0, 0, 0, 0, 0, 0, 0, 0, 0, 0, 0, 1,
    1, 1, 1, 1, 1, 1, 1, 1, 1, 1, 1, 1, 1, 1, 1, 1, 1, 1, 1, 1, 1, 1, 1, 1, 1, 1, 1, 1, 1, 1, 1, 1,
    1, 1, 1, 1, 1, 1, 1, 1, 1, 1, 1, 1, 1, 1, 1, 1, 1, 1, 1, 1, 1, 1, 1, 1, 1, 1, 1, 1, 1, 1, 1, 1,
    1, 1, 1, 1, 1, 1, 1, 1, 1, 1, 1, 1, 1, 1, 1, 1, 1, 1, 1, 1, 1, 1, 1, 1, 1, 1, 1, 1, 1, 1, 1, 1,
    1, 1, 1, 1, 1, 1, 1, 1, 1, 1, 1, 1, 1, 1, 1, 1, 1, 1, 1, 1, 1, 1, 1, 1, 1, 1, 1, 1, 1, 1, 1, 1,
];

/// Appends a byte as a picture shows it.
fn push_byte<A: Allocator>(text: &mut String<A>, byte: u8) -> Result<(), AllocError>
    ensures { OnOk result (string_bytes text.new ≡ string_bytes text.old ++ escaped_byte byte) }
{
    if byte == b'&' {
        text.push_str("&amp;")
    } else if byte == b'<' {
        text.push_str("&lt;")
    } else if byte == b'>' {
        text.push_str("&gt;")
    } else if byte == b'"' {
        text.push_str("&quot;")
    } else if byte == b'\'' {
        text.push_str("&#x27;")
    } else if (b' ' <= byte && byte <= b'~') || byte == b'\n' {
        text.push(char::from(byte))
    } else {
        text.push('?')
    }
}

/// Appends bytes one by one as a picture shows them.
fn push_each<A: Allocator>(text: &mut String<A>, bytes: &[u8]) -> Result<(), AllocError>
    ensures { OnOk result (string_bytes text.new ≡ string_bytes text.old ++ escaped bytes.now) }
{
    for byte in bytes {
        push_byte(text, *byte)?;
    }
    Ok(())
}

/// Whether a picture shows each of these bytes as itself.
fn are_plain(bytes: &[u8]) -> bool
    ensures { IsTrue result → escaped bytes.now ≡ bytes.now }
{
    let mut marks = 0;
    for byte in bytes {
        marks |= MARKS[*byte as usize];
    }
    marks == 0
}

/// Appends bytes as a picture shows them.
pub fn push_escaped<A: Allocator>(text: &mut String<A>, bytes: &[u8]) -> Result<(), AllocError>
    ensures { OnOk result (string_bytes text.new ≡ string_bytes text.old ++ escaped bytes.now) }
{
    // most texts hold no such byte, and are appended as a whole
    if are_plain(bytes) {
        if let Ok(plain) = std::str::from_utf8(bytes) {
            return text.push_str(plain);
        }
    }
    push_each(text, bytes)
}

/// Appends a number.
pub fn push_decimal<A: Allocator>(text: &mut String<A>, number: u64) -> Result<(), AllocError>
    ensures { OnOk result (string_bytes text.new ≡ string_bytes text.old ++ decimal number) }
{
    let mut digits = itoa::Buffer::new();
    text.push_str(digits.format(number))
}

/// Appends an attribute whose value is a number.
#[tactic(auto, unfolding(crate::specs::Elements::number_attribute))]
pub fn push_number<A: Allocator>(
    text: &mut String<A>,
    name: &str,
    number: u64,
) -> Result<(), AllocError>
    ensures { OnOk result (string_bytes text.new ≡ string_bytes text.old ++ number_attribute name.now number) }
{
    text.push(' ')?;
    text.push_str(name)?;
    text.push_str("=\"")?;
    push_decimal(text, number)?;
    text.push('"')
}

/// Ends the value of the attribute before it, and appends a class where there is one.
#[tactic(auto, unfolding(crate::specs::Elements::text_attribute))]
fn push_class<A: Allocator>(text: &mut String<A>, class: &[u8]) -> Result<(), AllocError>
    ensures { OnOk result
        (string_bytes text.new ≡ string_bytes text.old ++ 34 ∷ text_attribute (codes "class") class.now) }
{
    if class.is_empty() {
        return text.push('"');
    }
    text.push_str("\" class=\"")?;
    push_escaped(text, class)?;
    text.push('"')
}

/// Appends the name by which a link finds an element, where there is one, and ends the start tag.
#[tactic(auto, unfolding(crate::specs::Elements::text_attribute))]
fn push_anchor<A: Allocator>(text: &mut String<A>, anchor: &[u8]) -> Result<(), AllocError>
    ensures { OnOk result
        (string_bytes text.new ≡ string_bytes text.old ++ (text_attribute (codes "id") anchor.now ++ 62 ∷ [])) }
{
    if anchor.is_empty() {
        return text.push('>');
    }
    text.push_str(" id=\"")?;
    push_escaped(text, anchor)?;
    text.push_str("\">")
}

/// Appends the start of a rectangle, up to the value of its height.
fn push_frame<A: Allocator>(text: &mut String<A>, at: Frame) -> Result<(), AllocError>
    ensures { OnOk result (string_bytes text.new ≡ string_bytes text.old
        ++ (codes "<rect x=\"" ++ (decimal at.x ++ (codes "\" y=\"" ++ (decimal at.y
        ++ (codes "\" width=\"" ++ (decimal at.width ++ (codes "\" height=\"" ++ decimal at.height)))))))) }
{
    text.push_str("<rect x=\"")?;
    push_decimal(text, at.x)?;
    text.push_str("\" y=\"")?;
    push_decimal(text, at.y)?;
    text.push_str("\" width=\"")?;
    push_decimal(text, at.width)?;
    text.push_str("\" height=\"")?;
    push_decimal(text, at.height)
}

/// Appends the start tag of a rectangle.
#[tactic(auto, unfolding(crate::specs::Elements::rect_attributes, crate::specs::Elements::frame_attributes, crate::specs::Elements::number_attribute))]
fn push_look<A: Allocator>(
    text: &mut String<A>,
    at: Frame,
    class: &[u8],
    anchor: &[u8],
) -> Result<(), AllocError>
    ensures { OnOk result (string_bytes text.new ≡ string_bytes text.old ++ (codes "<rect"
        ++ (rect_attributes at.x at.y at.width at.height class.now anchor.now ++ 62 ∷ []))) }
{
    push_frame(text, at)?;
    push_class(text, class)?;
    push_anchor(text, anchor)
}

/// Appends the title of a box.
#[tactic(auto, unfolding(crate::specs::Elements::title_element))]
fn push_title<A: Allocator>(text: &mut String<A>, title: &[u8]) -> Result<(), AllocError>
    ensures { OnOk result (string_bytes text.new ≡ string_bytes text.old ++ title_element title.now) }
{
    text.push_str("<title>")?;
    push_escaped(text, title)?;
    text.push_str("</title>")
}

/// Appends a box with its title, and a line feed.
pub fn push_box<A: Allocator>(
    text: &mut String<A>,
    at: Frame,
    class: &[u8],
    anchor: &[u8],
    title: &[u8],
) -> Result<(), AllocError>
    ensures { OnOk result (string_bytes text.new ≡ string_bytes text.old
        ++ box_text at.x at.y at.width at.height class.now anchor.now title.now) }
{
    push_look(text, at, class, anchor)?;
    push_title(text, title)?;
    text.push_str("</rect>\n")
}

/// Appends the start of a line of words, up to the value of its `y`.
fn push_place<A: Allocator>(text: &mut String<A>, x: u64, y: u64) -> Result<(), AllocError>
    ensures { OnOk result (string_bytes text.new ≡ string_bytes text.old
        ++ (codes "<text x=\"" ++ (decimal x ++ (codes "\" y=\"" ++ decimal y)))) }
{
    text.push_str("<text x=\"")?;
    push_decimal(text, x)?;
    text.push_str("\" y=\"")?;
    push_decimal(text, y)
}

/// Appends a line of words, and a line feed.
#[tactic(auto, unfolding(crate::specs::Elements::place_attributes, crate::specs::Elements::number_attribute))]
pub fn push_words<A: Allocator>(
    text: &mut String<A>,
    x: u64,
    y: u64,
    class: &[u8],
    words: &[u8],
) -> Result<(), AllocError>
    ensures { OnOk result
        (string_bytes text.new ≡ string_bytes text.old ++ words_text x y class.now words.now) }
{
    push_place(text, x, y)?;
    push_class(text, class)?;
    text.push('>')?;
    push_escaped(text, words)?;
    text.push_str("</text>\n")
}

/// Appends words in grey.
#[tactic(auto, unfolding(crate::specs::Elements::faint_text))]
fn push_faint<A: Allocator>(text: &mut String<A>, words: &[u8]) -> Result<(), AllocError>
    ensures { OnOk result (string_bytes text.new ≡ string_bytes text.old ++ faint_text words.now) }
{
    text.push_str("<tspan class=\"faint\">")?;
    push_escaped(text, words)?;
    text.push_str("</tspan>")
}

/// Appends the words at the axis, of which the first ones are grey.
#[tactic(auto, unfolding(crate::specs::Elements::axis_words))]
fn push_axis_words<A: Allocator>(
    text: &mut String<A>,
    faint: &[u8],
    words: &[u8],
) -> Result<(), AllocError>
    ensures { OnOk result
        (string_bytes text.new ≡ string_bytes text.old ++ axis_words faint.now words.now) }
{
    push_faint(text, faint)?;
    push_escaped(text, words)
}

/// Appends a line of words at the axis, of which the first ones are grey, and a line feed.
#[tactic(auto, unfolding(crate::specs::Elements::place_attributes, crate::specs::Elements::number_attribute))]
pub fn push_axis<A: Allocator>(
    text: &mut String<A>,
    x: u64,
    y: u64,
    faint: &[u8],
    words: &[u8],
) -> Result<(), AllocError>
    ensures { OnOk result
        (string_bytes text.new ≡ string_bytes text.old ++ axis_text x y faint.now words.now) }
{
    push_place(text, x, y)?;
    push_class(text, b"axis")?;
    text.push('>')?;
    push_axis_words(text, faint, words)?;
    text.push_str("</text>\n")
}

/// Appends a short line at the axis, and a line feed.
pub fn push_tick<A: Allocator>(text: &mut String<A>, x: u64, y: u64) -> Result<(), AllocError>
    ensures { OnOk result (string_bytes text.new ≡ string_bytes text.old ++ tick_text x y) }
{
    text.push_str("<path d=\"M")?;
    push_decimal(text, x)?;
    text.push(' ')?;
    push_decimal(text, y)?;
    text.push_str("h4")?;
    text.push_str("\" class=\"tick\"/>\n")
}

/// Appends a line over a gap up to `to`, and a line feed.
pub fn push_gap<A: Allocator>(
    text: &mut String<A>,
    x: u64,
    y: u64,
    to: u64,
) -> Result<(), AllocError>
    ensures { OnOk result (string_bytes text.new ≡ string_bytes text.old ++ gap_text x y to) }
{
    text.push_str("<path d=\"M")?;
    push_decimal(text, x)?;
    text.push(' ')?;
    push_decimal(text, y)?;
    text.push('H')?;
    push_decimal(text, to)?;
    text.push_str("\" class=\"gap\"/>\n")
}
