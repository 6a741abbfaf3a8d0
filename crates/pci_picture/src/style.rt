//! The beginning and the end of a picture, and how its elements look.

ghost use Rattle.std.specs.Prelude.{◌≡◌, ◌++◌, ◌∷◌, [], codes, OnOk};
ghost use Rattle.std.specs.String.{string_bytes};
ghost use Rattle.pci_picture.specs.Whole.{svg_attributes, pair_text, view_value, view_box, ground_text, style_text, line_text, head_text, colours_text};

use super::elements::{push_decimal, push_number};
use std::alloc::{AllocError, Allocator};

/// The colours and fonts of the classes.
pub const STYLE: &str = "\n\
text{font:10px \"DejaVu Sans Mono\",Menlo,Consolas,monospace;fill:#222}\n\
.title{font-size:16px;font-weight:bold}.head{font-size:13px;font-weight:bold}.bold{font-weight:bold}\n\
.quiet{fill:#777}.faint{fill:#aaa}.axis{text-anchor:end;fill:#555}.alarm{fill:#b00020}\n\
rect{stroke:#8a93a0;stroke-width:1}.window{fill:#dfe8f5}.bar{fill:#bfe3c0}.pref{fill:#a8dcd9}.rom{fill:#e2cdf0}\n\
.free{fill:#fff;stroke:#ccc}.off{fill:#eee;stroke:#aaa;stroke-dasharray:2 2}\n\
.clash{stroke:#b00020;stroke-width:2}.lost{fill:#ffe2b8;stroke:#c05a00;stroke-width:2;stroke-dasharray:5 3}\n\
.shared{fill:url(#hatch);stroke:#b00020}.alarm.bold{font-weight:bold}.fits{fill:#f2fbf2;stroke:#2e7d32;stroke-dasharray:4 2}.good{fill:#2e7d32}.tick{stroke:#999}.gap{stroke:#bbb;stroke-dasharray:1 4}\n\
";

/// The colours of told ranges, in a style sheet of their own. One that is lost keeps the colour of what is lost.
pub const COLOURS: &str =
    "<style>.told:not(.lost){fill:#f4e9a8}.held:not(.lost){fill:#d8cfc4}</style>\n";

/// What stands before the boxes where a picture has told ranges, else nothing.
pub fn colours_of(is_told: bool) -> &'static str
    ensures { result.now ≡ colours_text is_told }
{
    if is_told { COLOURS } else { "" }
}

/// The hatching of shared addresses.
pub const HATCH: &str =
    "<defs><pattern id=\"hatch\" width=\"6\" height=\"6\" patternUnits=\"userSpaceOnUse\" \
patternTransform=\"rotate(45)\"><path d=\"M0 0V6\" stroke=\"#b00020\" stroke-width=\"2\" \
stroke-opacity=\"0.45\"/></pattern></defs>";

/// Appends the start of a picture: its element with its attributes.
#[tactic(auto, unfolding(crate::specs::Whole::svg_attributes))]
pub fn push_start<A: Allocator>(
    text: &mut String<A>,
    width: u64,
    height: u64,
) -> Result<(), AllocError>
    ensures { OnOk result (string_bytes text.new
        ≡ string_bytes text.old ++ (codes "<svg" ++ (svg_attributes width height ++ 62 ∷ []))) }
{
    text.push_str("<svg xmlns=\"http://www.w3.org/2000/svg\"")?;
    push_number(text, "width", width)?;
    push_number(text, "height", height)?;
    push_view(text, width, height)?;
    text.push('>')
}

/// Appends two numbers with a blank between them.
#[tactic(auto, unfolding(crate::specs::Whole::pair_text))]
fn push_pair<A: Allocator>(text: &mut String<A>, width: u64, height: u64) -> Result<(), AllocError>
    ensures { OnOk result (string_bytes text.new ≡ string_bytes text.old ++ pair_text width height) }
{
    push_decimal(text, width)?;
    text.push(' ')?;
    push_decimal(text, height)
}

/// Appends the upper left corner of the picture, and its width and height.
#[tactic(auto, unfolding(crate::specs::Whole::view_value))]
fn push_corners<A: Allocator>(
    text: &mut String<A>,
    width: u64,
    height: u64,
) -> Result<(), AllocError>
    ensures { OnOk result (string_bytes text.new ≡ string_bytes text.old ++ view_value width height) }
{
    text.push_str("0 0 ")?;
    push_pair(text, width, height)
}

/// Appends the attribute `viewBox`, which shows the whole picture.
#[tactic(auto, unfolding(crate::specs::Whole::view_box))]
fn push_view<A: Allocator>(text: &mut String<A>, width: u64, height: u64) -> Result<(), AllocError>
    ensures { OnOk result (string_bytes text.new ≡ string_bytes text.old ++ view_box width height) }
{
    text.push_str(" viewBox=\"")?;
    push_corners(text, width, height)?;
    text.push('"')
}

/// Appends the white background.
#[tactic(auto, unfolding(crate::specs::Whole::ground_text))]
fn push_ground<A: Allocator>(
    text: &mut String<A>,
    width: u64,
    height: u64,
) -> Result<(), AllocError>
    ensures { OnOk result (string_bytes text.new ≡ string_bytes text.old ++ ground_text width height) }
{
    text.push_str("<rect")?;
    push_number(text, "width", width)?;
    push_number(text, "height", height)?;
    text.push_str(" style=\"fill:#fff;stroke:none\"/>")
}

/// Appends a style sheet.
#[tactic(auto, unfolding(crate::specs::Whole::style_text))]
fn push_style<A: Allocator>(text: &mut String<A>, style: &str) -> Result<(), AllocError>
    ensures { OnOk result (string_bytes text.new ≡ string_bytes text.old ++ style_text style.now) }
{
    text.push_str("\n<style>")?;
    text.push_str(style)?;
    text.push_str("</style>\n")
}

/// Appends a text and a line feed.
#[tactic(auto, unfolding(crate::specs::Whole::line_text))]
fn push_line<A: Allocator>(text: &mut String<A>, line: &str) -> Result<(), AllocError>
    ensures { OnOk result (string_bytes text.new ≡ string_bytes text.old ++ line_text line.now) }
{
    text.push_str(line)?;
    text.push('\n')
}

/// Appends what stands before the boxes of a picture.
#[tactic(auto, unfolding(crate::specs::Whole::head_text))]
pub fn push_head<A: Allocator>(
    text: &mut String<A>,
    style: &str,
    hatch: &str,
    width: u64,
    height: u64,
) -> Result<(), AllocError>
    ensures { OnOk result (string_bytes text.new
        ≡ string_bytes text.old ++ head_text style.now hatch.now width height) }
{
    push_style(text, style)?;
    push_line(text, hatch)?;
    push_ground(text, width, height)?;
    text.push('\n')
}
