//! The colours of a picture. On paper it is always black on white.

/// Which light or dark colours a picture has on a screen.
#[derive(Clone, Copy, Debug, PartialEq, Eq)]
pub enum Scheme {
    Light,
    Dark,
    /// The colours that the reader's system asks for.
    Reader,
}

impl Scheme {
    /// What comes before and after the dark colours. `None` if there are no dark colours.
    pub(crate) fn around_dark(self) -> Option<(&'static str, &'static str)> {
        match self {
            Scheme::Light => None,
            Scheme::Dark => Some(("@media screen {\n", "}\n")),
            Scheme::Reader => Some(("@media screen and (prefers-color-scheme: dark) {\n", "}\n")),
        }
    }
}

pub(crate) const LIGHT: &str =
    ".wood { fill: #e3b565 } .line { stroke: #3b2c12; stroke-width: 1 } .edge { stroke: #3b2c12; stroke-width: 2.2; stroke-linecap: square } .star { fill: #3b2c12 }
.black { fill: #111; stroke: #000 } .white { fill: #fafafa; stroke: #333 }
.mark { fill: none; stroke: #3b2c12; stroke-width: 1.8 }
.onblack { fill: none; stroke: #fff; stroke-width: 1.8 } .onwhite { fill: none; stroke: #111; stroke-width: 1.8 }
.region { fill: #1f5fbf; opacity: .8 } text { font: 600 11px sans-serif; text-anchor: middle; fill: #444 }
.nblack { fill: #fff } .nwhite { fill: #111 } .letter { fill: #0b3d91; font-size: 14px } .small { font-size: 8px } .said { font-weight: 400; font-size: 12px; fill: #222 }
";

pub(crate) const DARK: &str =
    ".wood { fill: #6f5426 } .line, .edge, .mark { stroke: #1d1506 } .star { fill: #1d1506 } .region { fill: #9cc4ff }
.white { fill: #dcdcdc } text { fill: #bbb } .nblack { fill: #fff } .nwhite { fill: #111 } .letter { fill: #dbe9ff } .said { fill: #ddd }
";

pub(crate) const PRINT: &str = "@media print {
.wood { fill: #fff } .line, .edge, .mark { stroke: #000 } .star { fill: #000 } .region { fill: #777; opacity: 1 } .white { fill: #fff; stroke: #000 }
text, .letter, .said { fill: #000 } .nblack { fill: #fff }
}
";
