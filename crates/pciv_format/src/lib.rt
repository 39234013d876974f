// The PCIV format: its numbers, its refusals and the types of what routines answer. What they mean is defined in specs/, in the order
// of docs/FORMAT.md; the laws of the definitions are in proofs/.
#![tactic(auto)]

ghost use Rattle.std.specs.Prelude.{◌≡◌};
ghost use Rattle.pciv_format.specs.Refusals.{number_of};

// The most slots that a map may have.
pub const MAX_SLOTS: usize = 1048576;
// The length of the header; the primary array follows it.
pub const HEADER_LEN: usize = 40;
// The first eight bytes as a number: "PCIV" and four zeros.
pub const MAGIC: usize = 0x56494350;
// The primary byte of a distance that is in overflow.
pub const SENTINEL: u8 = 255;
// The largest distance that is stored inline.
pub const INLINE_MAX: u8 = 254;
// The largest distance.
pub const MAX_DISTANCE: u32 = 4294967295;
// Up to this many overflow entries a file has no sparse index.
pub const UNINDEXED_MAX: usize = 2048;
// How many numbers an answer of a run of edits is.
pub const ANSWER_LEN: usize = 10;

// The counts of a file: slots, overflow entries, index entries, the index's step, and its length in bytes.
#[derive(Clone, Copy)]
pub struct Counts {
    pub n: usize,
    pub k: usize,
    pub m: usize,
    pub step: usize,
    pub len: usize,
}

// The summary of a file: its counts, and the sum of all its distances.
#[derive(Clone, Copy)]
pub struct Summary {
    pub n: usize,
    pub k: usize,
    pub m: usize,
    pub step: usize,
    pub len: usize,
    pub sum: usize,
}

// What a call is refused for (docs/FORMAT.md, "Refusals"), with the refusal's number.
#[derive(Clone, Copy, Debug, PartialEq, Eq)]
pub enum RefusalKind {
    TruncatedHeader = 1,
    BadMagic = 2,
    TooManySlots = 3,
    BadCounts = 4,
    BadLength = 5,
    BadOverflowEntry = 6,
    MissingOverflowEntry = 7,
    BadIndexEntry = 8,
    SlotOutOfRange = 9,
    SizeMismatch = 10,
    DistanceOverflow = 11,
    BufferTooSmall = 12,
    BadMask = 13,
    BadBundle = 14,
    ZeroConstant = 19,
}

// Why a call is refused: the kind of refusal, the map at fault (1 or 2, or a bundle's frame from 1 to 8, else 0) and the
// place. It is the error of every routine.
#[derive(Clone, Copy, Debug, PartialEq, Eq)]
pub struct Refusal {
    pub kind: RefusalKind,
    pub map: usize,
    pub place: usize,
}

impl From<RefusalKind> for usize {
    ghost from_gives = { λ kind number. number ≡ number_of kind };

    fn from(kind: RefusalKind) -> usize {
        kind as usize
    }
}

// Where a distance is stored: `Inline` in the primary array, `Overflow` in the overflow entry with this number, from 0.
#[derive(Clone, Copy)]
pub enum Origin {
    Inline,
    Overflow(usize),
}

// The distance at a slot, and where it is stored.
#[derive(Clone, Copy)]
pub struct Located {
    pub distance: u32,
    pub origin: Origin,
}

// The answer of the editor: the new file's summary or a refusal, and how many overflow entries the edit moved, 0 after a
// refusal.
#[derive(Clone, Copy)]
pub struct EditAnswer {
    pub outcome: Result<Summary, Refusal>,
    pub moved: usize,
}

// An overflow entry: a slot and the distance there. It goes to C as it is.
#[repr(C)]
#[derive(Clone, Copy)]
pub struct Entry {
    pub slot: u64,
    pub distance: u32,
}

// How a distance is compared with a threshold.
#[derive(Clone, Copy)]
pub enum Comparison {
    Below,
    AtMost,
    Above,
    AtLeast,
}

// What is done with the bits of two masks.
#[derive(Clone, Copy)]
pub enum MaskOp {
    And,
    Or,
    Xor,
}

// What is done with the distances of two maps, slot by slot.
#[derive(Clone, Copy)]
pub enum SlotOp {
    Minimum,
    Maximum,
    Sum,
    Difference,
}
