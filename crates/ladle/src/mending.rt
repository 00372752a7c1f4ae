// Which words of a row are wrong: another number in the place of one would mend the row.
ghost use Rattle.std.specs.Prelude.{◌<◌};

use crate::table_files::TableFile;
use rows::columns;
use table_file::layout::{REGION, Table};
use tables::rule::Rule;
use verdict::entries::first_broken;

// Where a word lies among those of all tables.
fn place_of(table: Table, row: u32, column: usize) -> usize
    ensures { result < 330240 }
{
    let start = table.row_start(row);
    if start >= REGION || column >= REGION - start {
        return 0;
    }
    table.number() * REGION + start + column
}

// Whether the rule holds at the row once this number stands for a word.
fn is_mended_by(rule: Rule, row: u32, place: usize, number: u32, file: &mut TableFile) -> bool
    requires { place < 330240 }
{
    file.words[place] = number;
    first_broken(rule, &file.held()) != Some(row)
}

// A kind that is known is not what is wrong, though as another kind nearly every row is right. How many kinds there are stands here as a
// number: most enums of kinds are read from a whole row, and the word alone is asked about.
fn is_known_kind(table: Table, column: usize, word: u32) -> bool {
    match table {
        Table::TypeRefs => column == columns::TYPE_REF_KIND && word < 2,
        Table::Types => column == columns::TYPE_KIND && word < 6,
        Table::Selections => column == columns::SELECTION_KIND && word < 3,
        Table::Nodes => column == columns::NODE_KIND && word < 9,
        Table::Literals => column == columns::LITERAL_KIND && word < 11,
        Table::Answers => column == columns::ANSWER_KIND && word < 6,
        _ => false,
    }
}

// Whether another number would mend the row. Those that are tried are 0 and the row behind, where its children may begin.
fn is_wrong(rule: Rule, table: Table, row: u32, column: usize, file: &mut TableFile) -> bool {
    let place = place_of(table, row, column);
    let word = file.words[place];
    if is_known_kind(table, column, word) {
        return false;
    }
    let is_mended = is_mended_by(rule, row, place, 0, file)
        || is_mended_by(rule, row, place, row.saturating_add(1), file);
    file.words[place] = word;
    is_mended
}

// Prints each word of a row for which another number would mend it, where the rule is broken.
pub(crate) fn print_wrong_words(
    out: &impl Print,
    rule: Rule,
    table: Table,
    row: u32,
    file: &mut TableFile,
) {
    for column in 0..table.row_width() {
        if is_wrong(rule, table, row, column, file) {
            let word = file.words[place_of(table, row, column)];
            let _ = print!(out; ", word {column} is {word}");
        }
    }
}
