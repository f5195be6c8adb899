// The vocabulary: the words that the rules, the readers and their callers share. Its only functions describe a picture without a gap, tell
// the numbers of its kinds, and read the format of a number.
#![tactic(auto)]

ghost use Rattle.std.specs.Prelude.{◌≡◌, ◌≤◌};
ghost use Rattle.std.specs.Result.{MatchResult};
ghost use Rattle.rules.specs.Places.{sized as sized_of};
ghost use Rattle.rules.specs.declared.Refusal.TheVariants.{UnknownFormat};
ghost use Rattle.rules.specs.FileFormats.{format_number, container_number, orientation_number};

// The formats: the eight of document 01, in its order of readers, those of M-106 and M-108, and the rest of the desktop's eight-bit ones.
// BC6H, whose pixels are half floats, is not among them.
#[derive(Clone, Copy, Debug, PartialEq, Eq)]
pub enum Format {
    Etc1,
    Etc2Rgb,
    Etc2Rgba1,
    Etc2Rgba8,
    EacR,
    EacRSigned,
    EacRg,
    EacRgSigned,
    Bc1,
    Bc1Alpha,
    Bc3,
    Bc7,
    Bc2,
    Bc4,
    Bc4Signed,
    Bc5,
    Bc5Signed,
}

// The five kinds of colour block.
#[derive(Clone, Copy)]
pub enum Kind {
    Individual,
    Differential,
    T,
    H,
    Planar,
}

// Why a reader refuses; it answers `Result<(), Refusal>`. Document 01's number and values of each case are `refusal_said`, in
// specs/Answers.antt.
#[derive(Clone, Copy, Debug, PartialEq, Eq)]
pub enum Refusal {
    TooLarge,
    ShortData,
    ShortImage,
    // with the number of the first such block
    OutOfRange(usize),
    NoChannel,
    // of a strict reader: more bytes than the blocks need
    LongData,
    // of a sheet: a record is cut short, or there are no bytes at all
    CutShort,
    // the first record is no head
    NoHead,
    // a kind that no sheet has
    OtherKind,
    // no block record, a second one, or a wrong block length
    WrongBlocks,
    // of an opaque-only viewer: a block with its opaque bit clear, with the number of the first
    NotOpaque(usize),
    // of a picture: a pitch below the width
    ShortPitch,
    // of a file: it ends before its header does
    HeaderCut,
    // none of the containers that are known
    UnknownContainer,
    // a version or a byte order that nobody defined
    UnknownVersion,
    // a format that no reader reads
    UnknownFormat,
    // sizes that contradict each other
    SizesDisagree,
    // a volume, an array or a cube
    NotFlat,
    // a side of 0
    NoPixel,
    // the file ends before one of its levels does
    LevelsMissing,
    // no level of the number that is asked for
    NoLevel,
    // of KTX 2: the levels are compressed a second time
    Supercompressed,
}

// A picture's description, shared by all picture readers. The pitch is how many elements of the image a row takes, its gap included.
#[derive(Clone, Copy)]
pub struct Picture {
    pub width: usize,
    pub height: usize,
    pub pitch: usize,
}

impl Picture {
    // A picture whose rows have no gap between them: the pitch is the width.
    pub fn sized(width: usize, height: usize) -> Picture
        ensures { result ≡ sized_of width height }
    {
        Picture {
            width,
            height,
            pitch: width,
        }
    }
}

// How many blocks of a picture are of each kind, under ETC2 RGB.
#[derive(Clone, Copy)]
pub struct RgbCounts {
    pub individual: usize,
    pub differential: usize,
    pub t: usize,
    pub h: usize,
    pub planar: usize,
}

// How many are of each of the four kinds that RGBA1 has.
#[derive(Clone, Copy)]
pub struct KindCounts {
    pub differential: usize,
    pub t: usize,
    pub h: usize,
    pub planar: usize,
}

// The same with the opaque bit set, and with it clear.
#[derive(Clone, Copy)]
pub struct Rgba1Counts {
    pub opaque: KindCounts,
    pub clear: KindCounts,
}

// How many pixels of a picture two rules show differently, and how many blocks have one; the first such block and its first such place,
// or the number of blocks and 16 where there is none; and the largest difference of a red, a green or a blue, and of an alpha.
#[derive(Clone, Copy)]
pub struct OlderCounts {
    pub pixels: usize,
    pub blocks: usize,
    pub block: usize,
    pub place: usize,
    pub colour: u32,
    pub alpha: u32,
}

// What the head of a sheet says: the format and the size.
#[derive(Clone, Copy)]
pub struct Head {
    pub format: Format,
    pub width: usize,
    pub height: usize,
}

// A mode of BC7: how many subsets it has, and how many bits each kind of field. The p-bits are one of each endpoint's own, or one that
// both endpoints of a subset share; an index is the first, or the second where there are two. `row_of` (specs/Bc7.antt) makes a row of
// any list of numbers, so a field that a mode lacks has 0 bits here, and the bounds of a row stand in a type of crates/bc7.
#[derive(Clone, Copy)]
pub struct Mode {
    pub subsets: usize,
    pub partition: usize,
    pub rotation: usize,
    pub selection: usize,
    pub colour: usize,
    pub alpha: usize,
    pub own: usize,
    pub shared: usize,
    pub index: usize,
    pub second: usize,
}

// What has been read of a picture whose bytes arrive in pieces: how many bytes of its blocks were taken, of which those of the block
// that is not yet whole are kept. How many blocks are painted and how many bytes are kept follows from `taken`, so that every value
// is a state.
#[derive(Clone, Copy)]
pub struct Progress {
    pub format: Format,
    pub picture: Picture,
    pub taken: usize,
    pub kept: [u8; 15],
}

// What starting answers; a refusal has the state too, in which nothing is taken. `Starts` promises it then, so this is no `Result`.
#[derive(Clone, Copy)]
pub struct Started {
    pub answer: Result<(), Refusal>,
    pub progress: Progress,
}

// What a piece answers: the state after it, how many blocks it painted, and how many of its bytes it did not use. `Takes` promises
// them on a refusal too, so this is no `Result`.
#[derive(Clone, Copy)]
pub struct Taken {
    pub answer: Result<(), Refusal>,
    pub progress: Progress,
    pub painted: usize,
    pub unused: usize,
}

// A legend is one of three kinds, each with its degrees: one value; a line; a line up to red 128 and another beyond it.
#[derive(Clone, Copy)]
pub enum Legend {
    Level(f32),
    Line { low: f32, step: f32 },
    Bend { low: f32, step: f32, second: f32 },
}

// The degrees that a legend predicts, those that were measured, and predicted minus measured.
#[derive(Clone, Copy)]
pub struct Reading {
    pub predicted: f32,
    pub measured: f32,
    pub difference: f32,
}

// Why there is no reading; the reader of degrees answers `Result<Reading, NoReading>`. Document 02's number and values of each case are
// `degrees_said`, in specs/Degrees.antt.
#[derive(Clone, Copy, Debug, PartialEq, Eq)]
pub enum NoReading {
    // the pixel has alpha 0
    NotMeasured,
    // the legend is refused
    BadLegend,
    // two digits, or one that nobody has
    BadDigit,
    // the measurement is out of range, or no number
    BadMeasurement,
}

// Why the checker or the baker of ETC1 blocks is not done. The number of each case is `baking_said`, in specs/Checking.antt.
#[derive(Clone, Copy, Debug, PartialEq, Eq)]
pub enum BakingRefusal {
    // fewer than 8 bytes of a block, or of room for one
    ShortBlock,
    // fewer than 16 elements
    ShortTile,
    // of the baker: a base channel above 15, or a flip above 1
    NoBase,
    // the checker's answer that a block is not accepted, which is no refusal: it is out of range, or not near enough
    NotAccepted,
}

// The containers of files.
#[derive(Clone, Copy, Debug, PartialEq, Eq)]
pub enum Container {
    Pkm,
    Ktx1,
    Ktx2,
    Dds,
    Sheet,
}

// Which row of a picture comes first, where its file tells it.
#[derive(Clone, Copy, Debug, PartialEq, Eq)]
pub enum Orientation {
    Untold,
    TopDown,
    BottomUp,
}

// What a file tells: its container and its format, whether its colours are sRGB, the size of level 0, the number of levels, whether its
// numbers have the greatest byte first, which row comes first, and how many bytes follow the levels.
#[derive(Clone, Copy)]
pub struct FileFacts {
    pub container: Container,
    pub format: Format,
    pub srgb: bool,
    pub width: usize,
    pub height: usize,
    pub levels: usize,
    pub big_endian: bool,
    pub orientation: Orientation,
    pub left_over: usize,
}

// A level of a file: its size, and the bytes of its blocks.
#[derive(Clone, Copy)]
pub struct FileLevel {
    pub width: usize,
    pub height: usize,
    pub start: usize,
    pub length: usize,
}

// What a file's header tells. The levels start at byte `start`, or the header has an index of them; `agrees` is whether a size that
// the header tells twice is the same both times.
#[derive(Clone, Copy)]
pub struct Layout {
    pub container: Container,
    pub format: Format,
    pub srgb: bool,
    pub width: usize,
    pub height: usize,
    pub levels: usize,
    pub big_endian: bool,
    pub orientation: Orientation,
    pub start: usize,
    pub agrees: bool,
}

// A level on the way through the levels of a file: its size, and the byte at which it begins where levels follow one another.
#[derive(Clone, Copy)]
pub struct Spot {
    pub width: usize,
    pub height: usize,
    pub at: usize,
}

// The numbers of formats, containers and orientations, as callers from C and files of numbers have them.
impl From<Format> for usize {
    ghost from_gives = { λ f n. n ≡ format_number f };

    fn from(format: Format) -> usize {
        match format {
            Format::Etc1 => 0,
            Format::Etc2Rgb => 1,
            Format::Etc2Rgba1 => 2,
            Format::Etc2Rgba8 => 3,
            Format::EacR => 4,
            Format::EacRSigned => 5,
            Format::EacRg => 6,
            Format::EacRgSigned => 7,
            Format::Bc1 => 8,
            Format::Bc1Alpha => 9,
            Format::Bc3 => 10,
            Format::Bc7 => 11,
            Format::Bc2 => 12,
            Format::Bc4 => 13,
            Format::Bc4Signed => 14,
            Format::Bc5 => 15,
            Format::Bc5Signed => 16,
        }
    }
}

// The format of a number, where there is one.
impl TryFrom<usize> for Format {
    type Error = Refusal;

    ghost try_from_gives = { λ n r. MatchResult r (λ f. format_number f ≡ n) (λ e. (e ≡ UnknownFormat) × (17 ≤ n)) };

    fn try_from(number: usize) -> Result<Format, Refusal> {
        match number {
            0 => Ok(Format::Etc1),
            1 => Ok(Format::Etc2Rgb),
            2 => Ok(Format::Etc2Rgba1),
            3 => Ok(Format::Etc2Rgba8),
            4 => Ok(Format::EacR),
            5 => Ok(Format::EacRSigned),
            6 => Ok(Format::EacRg),
            7 => Ok(Format::EacRgSigned),
            8 => Ok(Format::Bc1),
            9 => Ok(Format::Bc1Alpha),
            10 => Ok(Format::Bc3),
            11 => Ok(Format::Bc7),
            12 => Ok(Format::Bc2),
            13 => Ok(Format::Bc4),
            14 => Ok(Format::Bc4Signed),
            15 => Ok(Format::Bc5),
            16 => Ok(Format::Bc5Signed),
            _ => Err(Refusal::UnknownFormat),
        }
    }
}

impl From<Container> for usize {
    ghost from_gives = { λ c n. n ≡ container_number c };

    fn from(container: Container) -> usize {
        match container {
            Container::Pkm => 1,
            Container::Ktx1 => 2,
            Container::Ktx2 => 3,
            Container::Dds => 4,
            Container::Sheet => 5,
        }
    }
}

impl From<Orientation> for usize {
    ghost from_gives = { λ o n. n ≡ orientation_number o };

    fn from(orientation: Orientation) -> usize {
        match orientation {
            Orientation::Untold => 0,
            Orientation::TopDown => 1,
            Orientation::BottomUp => 2,
        }
    }
}
