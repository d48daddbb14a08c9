// The names in a list, each told by a number: two digits for a character, a letter's place in the alphabet or a digit's code in ASCII.
// So the number of a name can be read, here and by whoever prints it.
ghost use Rattle.std.specs.Prelude.{◌≡◌, ◌≤◌};
ghost use Rattle.replay.specs.Names.{number_of_character, name_with, register_named, command_named, setting, numbers_before};

// font, cu, panel, out, file
const FONT: u64 = 06_15_14_20;

const CU: u64 = 03_21;

const PANEL: u64 = 16_01_14_05_12;

const OUT: u64 = 15_21_20;

const FILE: u64 = 06_09_12_05;

// counts
const COUNTS: u64 = 03_15_21_14_20_19;

// keep1, flip1, keep2, flip2
const KEEP1: u64 = 11_05_05_16_49;

const FLIP1: u64 = 06_12_09_16_49;

const KEEP2: u64 = 11_05_05_16_50;

const FLIP2: u64 = 06_12_09_16_50;

// show
const SHOW: u64 = 19_08_15_23;

// check, glyph, dots, row
const CHECK: u64 = 03_08_05_03_11;

const GLYPH: u64 = 07_12_25_16_08;

const DOTS: u64 = 04_15_20_19;

const ROW: u64 = 18_15_23;

// measure, paint
const MEASURE: u64 = 13_05_01_19_21_18_05;

const PAINT: u64 = 16_01_09_14_20;

// fresh, gather, join, apply
const FRESH: u64 = 06_18_05_19_08;

const GATHER: u64 = 07_01_20_08_05_18;

const JOIN: u64 = 10_15_09_14;

const APPLY: u64 = 01_16_16_12_25;

// paintlit, applylit, clear
const PAINTLIT: u64 = 16_01_09_14_20_12_09_20;

const APPLYLIT: u64 = 01_16_16_12_25_12_09_20;

const CLEAR: u64 = 03_12_05_01_18;

// convert, written
const CONVERT: u64 = 03_15_14_22_05_18_20;

const WRITTEN: u64 = 23_18_09_20_20_05_14;

#[tactic(auto, unfolding(crate::specs::Names::number_of_character))]
fn letter(b: u8) -> u64
    ensures { (result ≡ number_of_character b) × (result ≤ 255) }
{
    if b < 97 {
        return b as u64;
    }
    (b - 96) as u64
}

// The name with one more character. A name that is too long for a number is told by its first nine.
#[tactic(auto, unfolding(crate::specs::Names::name_with))]
pub fn extended(name: u64, b: u8) -> u64
    ensures { result ≡ name_with name b }
{
    if 9_999_999_999_999_999 < name {
        return name;
    }
    name * 100 + letter(b)
}

// The registers of a list.
#[derive(Clone, Copy)]
pub enum Register {
    Font,
    Cu,
    Panel,
    Out,
    Keep1,
    Flip1,
    Keep2,
    Flip2,
    File,
    Counts,
}

// What a line asks for.
#[derive(Clone, Copy)]
pub enum Command {
    Set(Register),
    Show,
    Written,
    Convert,
    Check,
    Glyph,
    Dots,
    Row,
    Measure,
    Paint,
    PaintLit,
    Fresh,
    Gather,
    Join,
    Apply,
    ApplyLit,
    Clear,
    Other,
}

impl Register {
    #[tactic(auto, unfolding(crate::specs::Names::register_named))]
    pub fn named(name: u64) -> Option<Register>
        ensures { result ≡ register_named name }
    {
        match name {
            FONT => Some(Register::Font),
            CU => Some(Register::Cu),
            PANEL => Some(Register::Panel),
            OUT => Some(Register::Out),
            KEEP1 => Some(Register::Keep1),
            FLIP1 => Some(Register::Flip1),
            KEEP2 => Some(Register::Keep2),
            FLIP2 => Some(Register::Flip2),
            FILE => Some(Register::File),
            COUNTS => Some(Register::Counts),
            _ => None,
        }
    }
}

impl Command {
    #[tactic(auto, unfolding(crate::specs::Names::command_named))]
    pub fn named(name: u64) -> Command
        ensures { result ≡ command_named name }
    {
        match name {
            SHOW => Command::Show,
            WRITTEN => Command::Written,
            CONVERT => Command::Convert,
            CHECK => Command::Check,
            GLYPH => Command::Glyph,
            DOTS => Command::Dots,
            ROW => Command::Row,
            MEASURE => Command::Measure,
            PAINT => Command::Paint,
            PAINTLIT => Command::PaintLit,
            FRESH => Command::Fresh,
            GATHER => Command::Gather,
            JOIN => Command::Join,
            APPLY => Command::Apply,
            APPLYLIT => Command::ApplyLit,
            CLEAR => Command::Clear,
            _ => Command::setting(Register::named(name)),
        }
    }

    // A register's name sets it; any other word is passed over.
    #[tactic(auto, unfolding(crate::specs::Names::setting))]
    fn setting(register: Option<Register>) -> Command
        ensures { result ≡ setting register }
    {
        match register {
            Some(register) => Command::Set(register),
            None => Command::Other,
        }
    }

    // How many fields stand between a command and its values, where it has values.
    #[tactic(auto, unfolding(crate::specs::Names::numbers_before))]
    pub fn numbers(self) -> Option<usize>
        ensures { result ≡ numbers_before self }
    {
        match self {
            Command::Set(_) => Some(0),
            Command::Measure => Some(1),
            Command::Paint | Command::PaintLit => Some(7),
            Command::Gather => Some(8),
            _ => None,
        }
    }
}
