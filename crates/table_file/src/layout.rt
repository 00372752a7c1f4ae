// Where each table's words lie. The sixteen are numbered in the order in which they are lent; each
// but the pool has a region of the same size in one array of words, so that a table's first word
// is found by a product. The region holds the largest table, 2,048 selections of ten words, with
// sixteen rows to spare: what is one row too long for the table check can still be written.
ghost use Rattle.std.specs.Prelude.{◌≡◌, ◌<◌, ◌*◌, replicate};
ghost use Rattle.table_file.specs.Numbers.{number_of};
ghost use Rattle.table_file.specs.Sizes.{width_of};

use rows::answers::ANSWER_WIDTH;
use rows::document::{FRAGMENT_WIDTH, GIVEN_WIDTH, SELECTION_WIDTH, SET_WIDTH};
use rows::json::{LITERAL_WIDTH, NODE_WIDTH, VARIABLE_WIDTH};
use rows::names::NAME_WIDTH;
use rows::schema::{ARGUMENT_WIDTH, FIELD_WIDTH, MEMBER_WIDTH, TYPE_REF_WIDTH, TYPE_WIDTH};

#[derive(Clone, Copy, PartialEq, Eq, Debug)]
pub enum Table {
    Pool,
    Names,
    TypeRefs,
    Types,
    Members,
    Fields,
    Arguments,
    Sets,
    Selections,
    Given,
    Fragments,
    Nodes,
    Literals,
    Variables,
    Answers,
    Root,
}

// How many there are.
pub const TABLES: usize = 16;

pub const REGION: usize = 20640;

pub const WORDS: usize = 330240;

pub const POOL_BYTES: usize = 69632;

pub type Pool = [u8; POOL_BYTES];

pub type Words = [u32; WORDS];

// How many words there are of each table, and at 0 how many bytes the pool has.
pub type Sizes = [usize; TABLES];

// How many words a row of each table has. The pool has no rows.
const WIDTHS: [usize; TABLES] = [
    0,
    NAME_WIDTH,
    TYPE_REF_WIDTH,
    TYPE_WIDTH,
    MEMBER_WIDTH,
    FIELD_WIDTH,
    ARGUMENT_WIDTH,
    SET_WIDTH,
    SELECTION_WIDTH,
    GIVEN_WIDTH,
    FRAGMENT_WIDTH,
    NODE_WIDTH,
    LITERAL_WIDTH,
    VARIABLE_WIDTH,
    ANSWER_WIDTH,
    1,
];

// A pool and words in which nothing is held yet.
pub fn new_pool() -> Pool
    ensures { result ≡ replicate 69632 0 }
{
    [0; POOL_BYTES]
}

pub fn new_words() -> Words
    ensures { result ≡ replicate 330240 0 }
{
    [0; WORDS]
}

// How many words a row of a table has; 0 of the pool and of no table. By number, since `row_width` and `row_start` promise an
// answer for every number, also where it is no table's.
pub fn row_width(number: usize) -> usize
    ensures { result ≡ width_of number }
{
    WIDTHS.get(number).copied().unwrap_or(0)
}

// Where a row begins in its table.
pub fn row_start(number: usize, row: u32) -> usize
    ensures { result ≡ width_of number * row }
{
    row_width(number) * row as usize
}

impl Table {
    pub fn number(self) -> usize
        ensures is { result ≡ number_of self }
        ensures below { result < 16 }
    {
        self as usize
    }

    pub fn row_width(self) -> usize
        ensures { result ≡ width_of (number_of self) }
    {
        row_width(self.number())
    }

    pub fn row_start(self, row: u32) -> usize
        ensures { result ≡ width_of (number_of self) * row }
    {
        row_start(self.number(), row)
    }
}
