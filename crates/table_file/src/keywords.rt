// The words that stand for numbers, and the headings of the tables.
use crate::layout::Table;

// The table that a heading begins.
pub(crate) fn heading(token: &[u8]) -> Option<Table> {
    let table = match token {
        b"[pool]" => Table::Pool,
        b"[names]" => Table::Names,
        b"[type_refs]" => Table::TypeRefs,
        b"[types]" => Table::Types,
        b"[members]" => Table::Members,
        b"[fields]" => Table::Fields,
        b"[arguments]" => Table::Arguments,
        b"[sets]" => Table::Sets,
        b"[selections]" => Table::Selections,
        b"[given]" => Table::Given,
        b"[fragments]" => Table::Fragments,
        b"[nodes]" => Table::Nodes,
        b"[literals]" => Table::Literals,
        b"[variables]" => Table::Variables,
        b"[answers]" => Table::Answers,
        b"[root]" => Table::Root,
        _ => return None,
    };
    Some(table)
}

// Whether a type is a list, and whether it is non-null.
fn type_ref_word(token: &[u8]) -> Option<u32> {
    match token {
        b"named" | b"nullable" => Some(0),
        b"list" | b"non-null" => Some(1),
        _ => None,
    }
}

fn type_word(token: &[u8]) -> Option<u32> {
    match token {
        b"scalar" => Some(0),
        b"enum" => Some(1),
        b"object" => Some(2),
        b"interface" => Some(3),
        b"union" => Some(4),
        b"input" => Some(5),
        _ => None,
    }
}

// A kind of selection, or a condition.
fn selection_word(token: &[u8]) -> Option<u32> {
    match token {
        b"field" => Some(0),
        b"spread" | b"false" => Some(1),
        b"inline" | b"true" => Some(2),
        _ => None,
    }
}

fn node_word(token: &[u8]) -> Option<u32> {
    match token {
        b"null" => Some(0),
        b"false" => Some(1),
        b"true" => Some(2),
        b"integer" => Some(3),
        b"negative" => Some(4),
        b"float" => Some(5),
        b"string" => Some(6),
        b"array" | b"list" => Some(7),
        b"object" => Some(8),
        _ => None,
    }
}

fn literal_word(token: &[u8]) -> Option<u32> {
    match token {
        b"enum" => Some(9),
        b"variable" => Some(10),
        _ => node_word(token),
    }
}

fn answer_word(token: &[u8]) -> Option<u32> {
    match token {
        b"skip" => Some(0),
        b"error" => Some(1),
        b"leaf" => Some(2),
        b"list" => Some(3),
        b"object" => Some(4),
        b"echo" => Some(5),
        _ => None,
    }
}

// What a word stands for in a row of this table. `none` and `-` are 0 everywhere.
pub(crate) fn keyword(table: Table, token: &[u8]) -> Option<u32> {
    if matches!(token, b"none" | b"-") {
        return Some(0);
    }
    match table {
        Table::TypeRefs => type_ref_word(token),
        Table::Types => type_word(token),
        Table::Selections => selection_word(token),
        Table::Nodes => node_word(token),
        Table::Literals => literal_word(token),
        Table::Answers => answer_word(token),
        _ => None,
    }
}
