// The columns of each table by name; docs/TABLES.md is the reader's copy. No code elsewhere has a column's number. What two or three words
// by kind mean is said by the views; a range is its first row and how many there are.
pub const NAME_START: usize = 0;

pub const NAME_LENGTH: usize = 1;

pub const TYPE_REF_KIND: usize = 0;

pub const TYPE_REF_NON_NULL: usize = 1;

pub const TYPE_REF_OF: usize = 2;

pub const TYPE_NAME: usize = 0;

pub const TYPE_KIND: usize = 1;

pub const TYPE_FIELDS: usize = 2;

pub const TYPE_FIELD_COUNT: usize = 3;

pub const TYPE_MEMBERS: usize = 4;

pub const TYPE_MEMBER_COUNT: usize = 5;

pub const MEMBER_NAME: usize = 0;

pub const FIELD_NAME: usize = 0;

pub const FIELD_TYPE: usize = 1;

pub const FIELD_DEFAULT: usize = 2;

pub const FIELD_PLACE: usize = 3;

pub const FIELD_ARGUMENTS: usize = 4;

pub const FIELD_ARGUMENT_COUNT: usize = 5;

pub const ARGUMENT_NAME: usize = 0;

pub const ARGUMENT_TYPE: usize = 1;

pub const ARGUMENT_DEFAULT: usize = 2;

pub const ARGUMENT_PLACE: usize = 3;

pub const SET_SELECTIONS: usize = 0;

pub const SET_SELECTION_COUNT: usize = 1;

pub const SELECTION_KIND: usize = 0;

pub const SELECTION_SKIP: usize = 1;

pub const SELECTION_INCLUDE: usize = 2;

pub const SELECTION_PLACE: usize = 3;

pub const SELECTION_NAME: usize = 4;

pub const SELECTION_KEY: usize = 5;

pub const SELECTION_GIVEN: usize = 6;

pub const SELECTION_GIVEN_COUNT: usize = 7;

pub const SELECTION_SET: usize = 8;

pub const SELECTION_TYPE: usize = 9;

pub const GIVEN_NAME: usize = 0;

pub const GIVEN_LITERAL: usize = 1;

pub const FRAGMENT_NAME: usize = 0;

pub const FRAGMENT_CONDITION: usize = 1;

pub const FRAGMENT_SET: usize = 2;

pub const NODE_KIND: usize = 0;

pub const NODE_ONE: usize = 1;

pub const NODE_TWO: usize = 2;

pub const NODE_KEY_START: usize = 3;

pub const NODE_KEY_LENGTH: usize = 4;

pub const LITERAL_KIND: usize = 0;

pub const LITERAL_ONE: usize = 1;

pub const LITERAL_TWO: usize = 2;

pub const LITERAL_PLACE: usize = 3;

pub const LITERAL_KEY: usize = 4;

pub const VARIABLE_NAME: usize = 0;

pub const VARIABLE_NODE: usize = 1;

pub const ANSWER_KIND: usize = 0;

pub const ANSWER_NAME: usize = 1;

pub const ANSWER_ONE: usize = 2;

pub const ANSWER_TWO: usize = 3;

pub const ANSWER_THREE: usize = 4;
