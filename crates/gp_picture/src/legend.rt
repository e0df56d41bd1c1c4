//! How everything looks, and the one legend of it. Spans and marks differ by lightness and pattern, not by colour
//! alone.

use crate::text::push_label;
use std::alloc::AllocError;

/// How texts, grounds and lines look.
const TEXT_STYLE: &'static str = "\
.n{text-anchor:end}.h{text-anchor:end;font-weight:bold}.m{text-anchor:middle}.i{fill:#fff}\
.t{paint-order:stroke;stroke:#fff;stroke-width:4px}.g{fill-opacity:.07}.v{fill:#bbb}";

/// How spans and marks look.
const SHAPE_STYLE: &'static str = "\
.k{fill:#fff;stroke:#555;stroke-dasharray:2}.r{fill:url(#r);stroke:#7a4f00}.o{fill:#1f6b4a}.x{fill:url(#x)}\
.w{fill:#a9c3f0;stroke:#12306b}.a{fill:#b00020}.f{fill:url(#f);stroke:#4b1d80}";

/// The patterns: slanted lines, a line through the middle, upright lines.
const PATTERNS: &'static str = "\
<defs><pattern id=\"r\" width=\"8\" height=\"8\" patternUnits=\"userSpaceOnUse\">\
<rect width=\"8\" height=\"8\" fill=\"#ffe0a3\"/><path d=\"M-1 9L9 -1\" stroke=\"#b57a15\"/></pattern>\n\
<pattern id=\"x\" width=\"4\" height=\"16\" patternUnits=\"userSpaceOnUse\">\
<rect y=\"5\" width=\"4\" height=\"2\" fill=\"#777\"/></pattern>\n\
<pattern id=\"f\" width=\"3\" height=\"6\" patternUnits=\"userSpaceOnUse\">\
<rect width=\"3\" height=\"6\" fill=\"#fff\"/><rect width=\"1\" height=\"6\" fill=\"#4b1d80\"/></pattern></defs>\n";

/// Appends what stands behind `<svg ` in a picture that is so high: its size, and how everything looks.
pub(crate) fn push_head(out: &mut String, height: u64) -> Result<(), AllocError> {
    write!(
        out,
        "xmlns=\"http://www.w3.org/2000/svg\" viewBox=\"0 0 1380 {height}\" width=\"1380\" height=\"{height}\""
    )?;
    out.push_str(" font-family=\"sans-serif\" font-size=\"11\">\n<style>")?;
    out.push_str(TEXT_STYLE)?;
    out.push_str(SHAPE_STYLE)?;
    out.push_str("</style>\n")?;
    out.push_str(PATTERNS)?;
    out.push_str("<rect width=\"100%\" height=\"100%\" fill=\"#fff\"/>\n")
}

/// Appends what something looks like, and what it is.
fn push_sample(
    out: &mut String,
    class: &str,
    x: u64,
    width: u64,
    name: &str,
) -> Result<(), AllocError> {
    write!(
        out,
        "<rect class=\"{class}\" x=\"{x}\" width=\"{width}\" height=\"12\"/>\n"
    )?;
    push_label(out, "l", x.saturating_add(width).saturating_add(6), 0, name)
}

/// Appends the legend.
pub(crate) fn push_legend(out: &mut String) -> Result<(), AllocError> {
    out.push_str("<g transform=\"translate(220 4)\">\n")?;
    push_sample(out, "k", 0, 20, "asking")?;
    push_sample(out, "r", 90, 20, "ranging")?;
    push_sample(out, "o", 190, 20, "operating")?;
    push_sample(out, "x", 300, 20, "removed")?;
    push_sample(out, "w", 410, 20, "window, unanswered")?;
    push_sample(out, "a", 580, 4, "alarm")?;
    push_sample(out, "f", 660, 6, "rule broken")?;
    push_label(out, "l", 770, 0, "+N: so many more marks up to there")?;
    push_label(
        out,
        "l",
        0,
        18,
        "Time goes from left to right, in frames of 125 &#181;s.",
    )?;
    out.push_str("</g>\n")
}
