// What is wrong with tables: a line for each rule that is broken, with the first row at which it is.
use crate::about::{Subject, about, table_of};
use crate::mending::print_wrong_words;
use crate::sentences::{print_rule, table_name};
use crate::table_files::TableFile;
use numbering::{rule_at, rule_count};
use table_file::layout::Table;
use table_file::line_of_row;
use tables::rule::Rule;
use verdict::entries::first_broken;
use verdict::say;

// The row of a broken rule: its line, where it is there, its table and its number.
fn print_row(out: &impl Print, table: Table, row: u32, file: &mut TableFile) {
    if table.row_start(row) < file.sizes[table.number()] {
        let line = line_of_row(file.text, file.pool, file.words, table, row);
        let _ = print!(out; "line {line}, ");
    }
    let name = table_name(table);
    let _ = print!(out; "{name} row {row}");
}

// What a rule is broken at.
fn print_where(out: &impl Print, rule: Rule, row: u32, file: &mut TableFile) {
    let table = table_of(rule);
    match about(rule) {
        Subject::Table => {
            let _ = out.print(table_name(table));
        }
        Subject::Numbers => {
            print_row(out, table, row, file);
            print_wrong_words(out, rule, table, row, file);
        }
        Subject::Row | Subject::Range => print_row(out, table, row, file),
    }
}

fn print_broken(out: &impl Print, rule: Rule, row: u32, file: &mut TableFile) {
    say::words(out, b"  ");
    print_where(out, rule, row, file);
    say::words(out, b": ");
    print_rule(out, rule);
    say::words(out, b"\n");
}

// Prints the rule if it is broken, and answers whether it is.
fn is_printed(out: &impl Print, rule: Rule, file: &mut TableFile) -> bool {
    match first_broken(rule, &file.held()) {
        Some(row) => {
            print_broken(out, rule, row, file);
            true
        }
        None => false,
    }
}

// A rule that goes through ranges is asked only where no earlier rule is broken: it is the earlier ones that bound how long a range is,
// how many rows share it, and how long a name is. What is left where every rule of a row holds is the one that follows a default into
// its parts.
pub(crate) fn print_broken_rules(out: &impl Print, file: &mut TableFile) {
    let mut is_any_broken = false;
    for number in 0..rule_count() {
        let rule = rule_at(number);
        let is_asked = !(is_any_broken && about(rule) == Subject::Range);
        if is_asked && is_printed(out, rule, file) {
            is_any_broken = true;
        }
    }
    if !is_any_broken {
        say::words(out, b"  literals: a default contains a variable\n");
    }
}
