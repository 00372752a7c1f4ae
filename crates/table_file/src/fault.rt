// Why a text is no table file.
use crate::layout::Table;

#[derive(Clone, Copy, PartialEq, Eq, Debug)]
pub enum Fault {
    NoTableYet,
    UnknownTable,
    AfterHeading,
    NotANumber,
    NumberTooLarge,
    UnknownWord,
    UnknownName,
    StringNotClosed,
    UnknownEscape,
    AfterString,
    NotAString,
    TableFull,
    PoolFull,
    RootGivenTwice,
    // How many words the line has, which are no whole rows of the table.
    NoWholeRow { table: Table, words: usize },
}

// A fault and where it is: at the token, or where one is missing.
#[derive(Clone, Copy, PartialEq, Eq, Debug)]
pub(crate) struct Misread {
    pub at: usize,
    pub fault: Fault,
}
