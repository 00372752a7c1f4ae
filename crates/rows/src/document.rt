// The operation's tables: sets of selections, arguments given, fragments.
ghost use Rattle.std.specs.Prelude.{◌≡◌};
ghost use Rattle.rows.specs.Document.{set_at, condition_of, field_selection, selection_of, selection_at, given_at, fragment_at, spread_selection, inline_selection};

use crate::columns::{
    FRAGMENT_CONDITION, FRAGMENT_NAME, FRAGMENT_SET, GIVEN_LITERAL, GIVEN_NAME, SELECTION_GIVEN,
    SELECTION_GIVEN_COUNT, SELECTION_INCLUDE, SELECTION_KEY, SELECTION_KIND, SELECTION_NAME,
    SELECTION_PLACE, SELECTION_SET, SELECTION_SKIP, SELECTION_TYPE, SET_SELECTION_COUNT,
    SET_SELECTIONS,
};
use crate::layout::{Range, cell, optional_row};

pub const SET_WIDTH: usize = 2;

pub const SELECTION_WIDTH: usize = 10;

pub const GIVEN_WIDTH: usize = 2;

pub const FRAGMENT_WIDTH: usize = 3;

// A skip or an include.
#[derive(Clone, Copy, PartialEq, Eq, Debug)]
pub enum Condition {
    Absent,
    False,
    True,
    Variable(u32),
}

// A field of a selection set; its child set is 0 where it has none. That is the word itself and no `Option`: the definition
// `field_selection` has it so, and the rules speak of every number in that column.
#[derive(Clone, Copy, PartialEq, Eq, Debug)]
pub struct FieldSelection {
    pub name: u32,
    pub key: u32,
    pub given: Range,
    pub set: u32,
    pub ty: u32,
}

#[derive(Clone, Copy, PartialEq, Eq, Debug)]
pub enum Selected {
    Field(FieldSelection),
    Spread { name: u32 },
    Inline { condition: Option<u32>, set: u32 },
    Unknown,
}

#[derive(Clone, Copy, PartialEq, Eq, Debug)]
pub struct Selection {
    pub what: Selected,
    pub skip: Condition,
    pub include: Condition,
    pub place: u32,
}

#[derive(Clone, Copy, PartialEq, Eq, Debug)]
pub struct Given {
    pub name: u32,
    pub literal: u32,
}

#[derive(Clone, Copy, PartialEq, Eq, Debug)]
pub struct Fragment {
    pub name: u32,
    pub condition: u32,
    pub set: u32,
}

// The selections of a set.
#[tactic(auto, unfolding(crate::specs::Document::set_at))]
pub fn set_at(sets: &[u32], row: u32) -> Range
    ensures { result ≡ set_at sets.now row }
{
    let at = row as usize;
    Range {
        first: cell(sets, SET_WIDTH, at, SET_SELECTIONS),
        count: cell(sets, SET_WIDTH, at, SET_SELECTION_COUNT),
    }
}

impl From<u32> for Condition {
    ghost from_gives = { λ word condition. condition ≡ condition_of word };

    fn from(word: u32) -> Condition {
        match word {
            0 => Condition::Absent,
            1 => Condition::False,
            2 => Condition::True,
            _ => Condition::Variable(word - 3),
        }
    }
}

// A selection as a field, whatever it is.
#[tactic(auto, unfolding(crate::specs::Document::field_selection))]
pub fn field_selection(selections: &[u32], row: u32) -> FieldSelection
    ensures { result ≡ field_selection selections.now row }
{
    let at = row as usize;
    FieldSelection {
        name: cell(selections, SELECTION_WIDTH, at, SELECTION_NAME),
        key: cell(selections, SELECTION_WIDTH, at, SELECTION_KEY),
        given: Range {
            first: cell(selections, SELECTION_WIDTH, at, SELECTION_GIVEN),
            count: cell(selections, SELECTION_WIDTH, at, SELECTION_GIVEN_COUNT),
        },
        set: cell(selections, SELECTION_WIDTH, at, SELECTION_SET),
        ty: cell(selections, SELECTION_WIDTH, at, SELECTION_TYPE),
    }
}

// Where a selection stands in the document.
#[tactic(auto, unfolding(crate::specs::Document::selection_at))]
pub fn selection_place(selections: &[u32], row: u32) -> u32
    ensures { result ≡ (selection_at selections.now row).place }
{
    cell(selections, SELECTION_WIDTH, row as usize, SELECTION_PLACE)
}

#[tactic(auto, unfolding(crate::specs::Document::spread_selection))]
fn spread_selection(selections: &[u32], row: u32) -> Selected
    ensures { result ≡ spread_selection selections.now row }
{
    Selected::Spread {
        name: cell(selections, SELECTION_WIDTH, row as usize, SELECTION_NAME),
    }
}

#[tactic(auto, unfolding(crate::specs::Document::inline_selection))]
fn inline_selection(selections: &[u32], row: u32) -> Selected
    ensures { result ≡ inline_selection selections.now row }
{
    let at = row as usize;
    let condition = optional_row(cell(selections, SELECTION_WIDTH, at, SELECTION_NAME));
    Selected::Inline {
        condition,
        set: cell(selections, SELECTION_WIDTH, at, SELECTION_SET),
    }
}

// What a selection is, without its conditions and its place.
#[tactic(auto, unfolding(crate::specs::Document::selection_of))]
pub fn what_is_selected(selections: &[u32], row: u32) -> Selected
    ensures { result ≡ selection_of selections.now row }
{
    let kind = cell(selections, SELECTION_WIDTH, row as usize, SELECTION_KIND);
    match kind {
        0 => Selected::Field(field_selection(selections, row)),
        1 => spread_selection(selections, row),
        2 => inline_selection(selections, row),
        _ => Selected::Unknown,
    }
}

#[tactic(auto, unfolding(crate::specs::Document::selection_at))]
pub fn selection_at(selections: &[u32], row: u32) -> Selection
    ensures { result ≡ selection_at selections.now row }
{
    let at = row as usize;
    let skip = Condition::from(cell(selections, SELECTION_WIDTH, at, SELECTION_SKIP));
    let include = Condition::from(cell(selections, SELECTION_WIDTH, at, SELECTION_INCLUDE));
    let place = cell(selections, SELECTION_WIDTH, at, SELECTION_PLACE);
    let what = what_is_selected(selections, row);
    Selection {
        what,
        skip,
        include,
        place,
    }
}

#[tactic(auto, unfolding(crate::specs::Document::given_at))]
pub fn given_at(given: &[u32], row: u32) -> Given
    ensures { result ≡ given_at given.now row }
{
    let at = row as usize;
    Given {
        name: cell(given, GIVEN_WIDTH, at, GIVEN_NAME),
        literal: cell(given, GIVEN_WIDTH, at, GIVEN_LITERAL),
    }
}

#[tactic(auto, unfolding(crate::specs::Document::fragment_at))]
pub fn fragment_at(fragments: &[u32], row: u32) -> Fragment
    ensures { result ≡ fragment_at fragments.now row }
{
    let at = row as usize;
    Fragment {
        name: cell(fragments, FRAGMENT_WIDTH, at, FRAGMENT_NAME),
        condition: cell(fragments, FRAGMENT_WIDTH, at, FRAGMENT_CONDITION),
        set: cell(fragments, FRAGMENT_WIDTH, at, FRAGMENT_SET),
    }
}
