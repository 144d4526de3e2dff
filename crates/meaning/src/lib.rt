// The places, offsets and answers in which every crate speaks. What each answer says in document 01's numbers is in specs/Says.antt.
#![tactic(auto)]

ghost use Rattle.std.specs.Prelude.{◌≡◌, Some};
ghost use Rattle.std.specs.Fmt.{decimal};
ghost use Rattle.meaning.specs.Positions.{at_byte, at_bit};
ghost use Rattle.meaning.specs.Says.{refusal_number};

use std::error::Error;
use std::fmt;

// Document 01's limits.
pub const MOST_COLUMNS: usize = 16;

pub const MOST_NUMBERS: usize = 1024;

pub const MOST_BYTES: usize = 65536;

// A plan is so many bytes.
pub const PLAN_BYTES: usize = 15;

// Codes are numbered from 1 to this.
pub const LAST_CODE: u8 = 8;

// The kinds: any numbers, or rising ones, by the edition. kept as numbers: the judge, the writers and a sheet's entry have any byte for a kind.
pub const ANY: u8 = 0;

pub const RISING: u8 = 1;

// A sheet's first byte is one of these.
pub const FIRST_EDITION: u8 = 1;

pub const LAST_EDITION: u8 = 2;

// The bytes of a sheet's head and of an entry.
pub const HEAD_SIZE: usize = 2;

pub const ENTRY_SIZE: usize = 24;

// The refusals by their numbers in document 01; what each says is in specs/Limits.antt.
#[derive(Clone, Copy, Debug, PartialEq, Eq, Hash)]
pub enum Refusal {
    NoSheet = 1,
    BadTable = 2,
    Malformed = 3,
    Unfit = 4,
    NoColumn = 5,
    NoPlace = 6,
    NoRoom = 7,
    ShortWork = 8,
    CutShort = 9,
    Falls = 10,
    BadOrders = 11,
    BadBoard = 12,
    Broken = 13,
}

impl From<Refusal> for u8 {
    ghost from_gives = { λ e n. n ≡ refusal_number e };

    fn from(e: Refusal) -> u8 {
        e as u8
    }
}

impl From<Refusal> for u32 {
    ghost from_gives = { λ e n. n ≡ refusal_number e };

    fn from(e: Refusal) -> u32 {
        e as u32
    }
}

// A refusal is shown by its number.
impl fmt::Display for Refusal {
    ghost output = { λ e. Some (decimal (refusal_number e)) };

    fn fmt<W: fmt::Write>(&self, f: &mut fmt::Formatter<W>) -> fmt::Result {
        write!(f, "{}", u8::from(*self))
    }
}

impl Error for Refusal {}

// A refusal that names the column at fault, 0 where it is of the whole sheet.
#[derive(Clone, Copy, Debug, PartialEq, Eq, Hash)]
pub struct Fault {
    pub refusal: Refusal,
    pub column: usize,
}

// A refusal of the whole sheet.
impl From<Refusal> for Fault {
    ghost from_gives = { λ e f. f ≡ record { refusal = e; column = 0 } };

    fn from(e: Refusal) -> Fault {
        Fault {
            refusal: e,
            column: 0,
        }
    }
}

// An operation on one column does not tell which column the check found at fault.
impl From<Fault> for Refusal {
    ghost from_gives = { λ f e. e ≡ f.refusal };

    fn from(f: Fault) -> Refusal {
        f.refusal
    }
}

// A place counts numbers.
#[derive(Clone, Copy)]
pub struct Place {
    pub number: usize,
}

// An offset counts bytes.
#[derive(Clone, Copy)]
pub struct Offset {
    pub byte: usize,
}

// A bit, counted from the first byte on: in gamma and delta highest bit of each byte first, in code 8 and in rank and select lowest first.
#[derive(Clone, Copy)]
pub struct Bit {
    pub index: usize,
}

// Where a unit begins: its first byte, or its control byte; in Stream VByte also its data, the tail; in gamma, delta and code 8 a bit. What a code does
// not use is 0.
#[derive(Clone, Copy)]
pub struct Position {
    pub head: Offset,
    pub tail: Offset,
    pub bit: Bit,
}

// A position that is an offset alone.
impl From<Offset> for Position {
    ghost from_gives = { λ at p. p ≡ at_byte at.byte };

    fn from(at: Offset) -> Position {
        Position {
            head: at,
            tail: Offset { byte: 0 },
            bit: Bit { index: 0 },
        }
    }
}

// A position that is a bit alone.
impl From<Bit> for Position {
    ghost from_gives = { λ bit p. p ≡ at_bit bit.index };

    fn from(bit: Bit) -> Position {
        Position {
            head: Offset { byte: 0 },
            tail: Offset { byte: 0 },
            bit,
        }
    }
}

// One unit read: where the next begins, how many numbers this one holds, and these from the array's first place on; the places after them are 0.
#[derive(Clone, Copy)]
pub struct UnitRead {
    pub next: Position,
    pub count: usize,
    pub numbers: [u32; 16],
}

// Units taken one after the other: how many numbers they hold, how many units they are, and where the next unit begins. A next unit may follow them
// where its first number takes more bytes than the last of them left spare.
#[derive(Clone, Copy)]
pub struct Taken {
    pub count: usize,
    pub units: usize,
    pub next: Position,
    pub spare: usize,
}

// Counting the board.
#[derive(Clone, Copy)]
pub struct Tally {
    pub passed: usize,
    pub failed: usize,
    pub killed: usize,
    pub unended: usize,
}
