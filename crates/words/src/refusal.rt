// What a call is refused for.
ghost use Rattle.std.specs.Prelude.{◌≡◌, Some};
ghost use Rattle.words.specs.Refusal.{number_of, message_of};

use std::fmt;

// The refusals, each beside its number and in the order in which the tests are made.
#[derive(Clone, Copy, Debug, PartialEq, Eq)]
pub enum Refusal {
    OddBytes = 14,
    FontTooShort = 1,
    NotAStrike = 2,
    FontCodes = 3,
    BodyCount = 15,
    FontSize = 4,
    FontLength = 5,
    Pointers = 6,
    NoPicture = 16,
    NoDummy = 7,
    Panel = 8,
    Strip = 9,
    Start = 10,
    LongLabel = 11,
    Mode = 12,
    LitDots = 30,
    CuSize = 20,
    CuCutShort = 21,
    CuCodes = 22,
    CuOrigin = 23,
    CuSpacing = 24,
    CuOffset = 25,
    FontTooLarge = 26,
    OutputTooShort = 27,
}

impl Refusal {
    // The number by which C programs and lists of calls know it.
    pub fn number(self) -> u32
        ensures { result ≡ number_of self }
    {
        self as u32
    }
}

impl fmt::Display for Refusal {
    ghost output = { λ refusal. Some (message_of refusal) };

    fn fmt<W: fmt::Write>(&self, f: &mut fmt::Formatter<W>) -> fmt::Result {
        f.write_str(match self {
            Refusal::OddBytes => "odd number of bytes",
            Refusal::FontTooShort => "font file too short for its header",
            Refusal::NotAStrike => "not a plain or kerned strike file",
            Refusal::FontCodes => "font codes out of order or over 255",
            Refusal::BodyCount => "index: number of bodies not 1 to 128",
            Refusal::FontSize => "size in the font's header out of range",
            Refusal::FontLength => "font's length is not what its header says",
            Refusal::Pointers => "font's column pointers out of order or past the bitmap",
            Refusal::NoPicture => "index: a code names no picture",
            Refusal::NoDummy => "font has no dummy character",
            Refusal::Panel => "panel size out of range, or its memory too short",
            Refusal::Strip => "strip over 31",
            Refusal::Start => "x or y not -1024 to 1023",
            Refusal::LongLabel => "label over 64 bytes",
            Refusal::Mode => "mode over 2",
            Refusal::LitDots => "lit dots of a strip out of range",
            Refusal::CuSize => "CU file too short, or its raster size out of range",
            Refusal::CuCutShort => "CU file ends inside a character",
            Refusal::CuCodes => "CU code over 255, or there twice",
            Refusal::CuOrigin => "CU file has no code 65 with a dot",
            Refusal::CuSpacing => "CU spacing too large",
            Refusal::CuOffset => "CU character too far right",
            Refusal::FontTooLarge => "font to be written too large",
            Refusal::OutputTooShort => "output memory too short",
        })
    }
}
