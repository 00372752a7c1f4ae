// The table check: code 0 where every rule of document 01 on the tables lent holds, and 1 otherwise.
ghost use Rattle.std.specs.Prelude.{◌≡◌};
ghost use Rattle.tables.specs.Tables.{lent};
ghost use Rattle.tables.specs.Rules.{rows_lawful};
ghost use Rattle.tables.specs.Lawful.{table_code, lawful_buffers, lawful_choices};

use crate::data::values_are_lawful;
use crate::defaults::defaults_are_closed;
use crate::document::document_is_lawful;
use crate::schema::schema_is_lawful;
use crate::sizes::{document_is_sized, schema_is_sized, values_are_sized};
use rows::json::LITERAL_WIDTH;
use rows::layout::row_count;
use rows::limits::{MOST_CHOICES, MOST_ERROR_WORDS, MOST_TEXT_BYTES};
use rows::names::NAME_WIDTH;
use rows::schema::TYPE_REF_WIDTH;
use rows::tables::Tables;

// The codes that the C function `ladlehedge_table_check` returns.
pub const LAWFUL: u32 = 0;

pub const UNLAWFUL: u32 = 1;

// Every rule holds at every row that it speaks of.
fn rows_are_lawful(tables: &Tables) -> bool
    ensures { result ≡ rows_lawful (lent tables.now) }
{
    let sized = schema_is_sized(
        tables.pool,
        tables.names,
        tables.type_refs,
        tables.types,
        tables.fields,
        tables.arguments,
    ) & (document_is_sized(
        tables.sets,
        tables.selections,
        tables.given,
        tables.fragments,
    ) & values_are_sized(
        tables.nodes,
        tables.literals,
        tables.variables,
        tables.answers,
    ));
    if !sized {
        return false;
    }
    let name_count = row_count(tables.names, NAME_WIDTH);
    let ref_count = row_count(tables.type_refs, TYPE_REF_WIDTH);
    let literal_count = row_count(tables.literals, LITERAL_WIDTH);
    if !schema_is_lawful(
        tables.pool,
        tables.names,
        tables.type_refs,
        tables.types,
        tables.members,
        tables.fields,
        tables.arguments,
        literal_count,
        tables.root,
    ) {
        return false;
    }
    if !document_is_lawful(
        name_count,
        ref_count,
        tables.sets,
        tables.selections,
        tables.given,
        tables.fragments,
        literal_count,
    ) {
        return false;
    }
    values_are_lawful(
        tables.pool,
        name_count,
        tables.nodes,
        tables.literals,
        tables.variables,
        tables.answers,
    )
}

pub fn table_check(tables: &Tables) -> u32
    ensures { result ≡ table_code (lent tables.now) }
{
    if !rows_are_lawful(tables) {
        return UNLAWFUL;
    }
    if !defaults_are_closed(tables.fields, tables.arguments, tables.literals) {
        return UNLAWFUL;
    }
    LAWFUL
}

// The rules on what else a run is lent: a text buffer, an error buffer and choices, by their lengths.
pub fn buffers_are_lawful(text: usize, errors: usize) -> bool
    ensures { result ≡ lawful_buffers text errors }
{
    (text <= MOST_TEXT_BYTES) & (errors <= MOST_ERROR_WORDS)
}

pub fn choices_are_lawful(choices: usize) -> bool
    ensures { result ≡ lawful_choices choices }
{
    choices <= MOST_CHOICES
}
