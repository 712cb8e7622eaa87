//! How areas and shades are drawn: hatching shows the area and cover the shade, so a drawing can be read without colours.
use crate::area::Area;
use crate::shade::Shade;

pub(crate) const AREAS: [Area; 4] = [Area::Prefix, Area::Fillers, Area::Moving, Area::Free];

/// All shades, from the lightest.
pub(crate) const SHADES: [Shade; 5] = [
    Shade::Empty,
    Shade::Low,
    Shade::Middle,
    Shade::High,
    Shade::Full,
];

/// The name of an area in titles and in the legend.
pub(crate) fn name_of(area: Area) -> &'static str {
    match area {
        Area::Prefix => "prefix",
        Area::Fillers => "prefix with fillers",
        Area::Moving => "moving",
        Area::Free => "free",
    }
}

/// The letter with which the id of an area's patterns begins.
pub(crate) fn key_of(area: Area) -> &'static str {
    match area {
        Area::Prefix => "p",
        Area::Fillers => "f",
        Area::Moving => "m",
        Area::Free => "e",
    }
}

/// The hatching of an area, as a path in a square of 8 by 8.
pub(crate) fn hatching_of(area: Area) -> &'static str {
    match area {
        Area::Prefix => "M-2 2L2 -2M0 8L8 0M6 10L10 6",
        Area::Fillers => "M0 8L8 0M0 0L8 8",
        Area::Moving => "M0 4h8",
        Area::Free => "M3 4h2",
    }
}

/// The name of a shade in the legend.
pub(crate) fn share_of(shade: Shade) -> &'static str {
    match shade {
        Shade::Empty => "none lives",
        Shade::Low => "few",
        Shade::Middle => "half",
        Shade::High => "most",
        Shade::Full => "all live",
    }
}

/// The digit with which the id of a shade's patterns ends.
pub(crate) fn digit_of(shade: Shade) -> &'static str {
    match shade {
        Shade::Empty => "0",
        Shade::Low => "1",
        Shade::Middle => "2",
        Shade::High => "3",
        Shade::Full => "4",
    }
}

/// The opacity of an area's colour at a shade, over white.
pub(crate) fn cover_of(shade: Shade) -> &'static str {
    match shade {
        Shade::Empty => "0.05",
        Shade::Low => "0.25",
        Shade::Middle => "0.5",
        Shade::High => "0.75",
        Shade::Full => "1",
    }
}

/// The class of hatching that stands out on a shade.
pub(crate) fn line_of(shade: Shade) -> &'static str {
    match shade {
        Shade::Empty | Shade::Low | Shade::Middle => "onlight",
        Shade::High | Shade::Full => "ondark",
    }
}

/// The colours, for light and dark pages. The class of an area is the letter of its patterns.
pub(crate) const STYLES: &str = r##"<style>
rect { shape-rendering: crispEdges }
.page, .frame { fill: #fff }
.frame { stroke: #555 }
text { fill: #111 }
.p { fill: #00508f }
.f { fill: #8a4b00 }
.m { fill: #00693a }
.e { fill: #555 }
.shade { fill: #111 }
.onlight { stroke: #111 }
.ondark { stroke: #fff }
.onlight, .ondark { stroke-width: .7; stroke-opacity: .6 }
.mark { fill: #c00000; stroke: #c00000; stroke-width: 1.4; stroke-linejoin: round }
.band { fill: #00693a; fill-opacity: .2; stroke: #00693a; stroke-width: .7 }
.odd { fill-opacity: .45 }
@media (prefers-color-scheme: dark) {
.page, .frame { fill: #16181c }
.frame { stroke: #aaa }
text { fill: #eee }
.p { fill: #8cc2ff }
.f { fill: #ffc27a }
.m { fill: #6fdc9f }
.e { fill: #bbb }
.shade { fill: #eee }
.onlight { stroke: #eee }
.ondark { stroke: #111 }
.mark { fill: #ff8a7a; stroke: #ff8a7a }
.band { fill: #6fdc9f; stroke: #6fdc9f }
}
</style>
"##;
