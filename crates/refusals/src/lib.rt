// Refusals in their order, and the error of a step that counts.
#![tactic(auto)]

ghost use Rattle.std.specs.Prelude.{◌≡◌};
ghost use Rattle.refusals.specs.Refusals.{as_number};
ghost use Rattle.refusals.specs.declared.CountError.TheVariants.{Refused};

// Why a step refuses, each with its number in the rules (section 11). A step whose refusal carries values has an error of its own.
#[derive(Clone, Copy, Debug, PartialEq, Eq)]
pub enum Refusal {
    // the cell size is not above zero, or not finite
    CellSize = 1,
    // a bound of the box is not finite, or a lower one is above its upper one
    Bounds = 2,
    // more levels than there may be
    Levels = 3,
    // more points, cells, roots or octants than there may be
    TooLarge = 4,
    // a table that is read or worked in has the wrong length
    Length = 5,
    // a byte of a table of answers is too high
    Byte = 6,
    // the split table is no graded octree
    Ungraded = 7,
    // a cell names a point that is not there
    Point = 8,
    // a table that is written has no room
    NoRoom = 9,
    // no cell is kept
    NothingKept = 10,
    // a file ends inside one of its parts
    Cut = 11,
    // bytes stand behind a file's last part
    Trailing = 12,
    // component numbers that the writer does not give
    Numbers = 13,
    // a byte departs from the text that is due
    Text = 14,
    // a cell that is no tetrahedron
    Shape = 15,
    // a coordinate or a total is too high
    Range = 16,
    // a cell names one point twice
    Twice = 17,
}

impl Refusal {
    // Its number.
    pub fn number(self) -> u32
        ensures { result ≡ as_number self }
    {
        self as u32
    }
}

// Why a step that counts gives no count: refused; no room for so many.
#[derive(Clone, Copy, Debug, PartialEq, Eq)]
pub enum CountError {
    Refused(Refusal),
    Short(u64),
}

impl From<Refusal> for CountError {
    ghost from_gives = { λ why r. r ≡ Refused why };

    fn from(why: Refusal) -> CountError {
        CountError::Refused(why)
    }
}
