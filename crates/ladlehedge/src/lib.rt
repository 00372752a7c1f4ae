// The public entries as C functions, for a static library. Each is a call of the entry that it is named after and promises
// what that entry promises; nothing is asked of the caller but what C itself asks (include/ladlehedge.h). A slice is passed as
// a pointer and then a length, so the tables come one by one, and are put together here.
#![tactic(auto)]

ghost use Rattle.std.specs.Prelude.{◌≡◌, length};
ghost use Rattle.tables.specs.Tables.{tables};
ghost use Rattle.tables.specs.Lawful.{table_code};
ghost use Rattle.graphql.specs.Depth.{depth_report};
ghost use Rattle.graphql.specs.Report.{report, report_in_order, Reports};
ghost use Rattle.introspection.specs.MaxDepth.{Answers};

use introspection::max_depth::depth_check;
use rows::tables::Tables;
use running::run::{run, run_ordered};
use tables::check::table_check;

// Whether the tables lent are lawful: 0, or 1 where a rule is broken.
#[unsafe(no_mangle)]
pub extern "C" fn ladlehedge_table_check(
    pool: &[u8],
    names: &[u32],
    type_refs: &[u32],
    types: &[u32],
    members: &[u32],
    fields: &[u32],
    arguments: &[u32],
    sets: &[u32],
    selections: &[u32],
    given: &[u32],
    fragments: &[u32],
    nodes: &[u32],
    literals: &[u32],
    variables: &[u32],
    answers: &[u32],
    root: u32,
) -> u32
    ensures { result ≡ table_code (tables pool.now names.now type_refs.now types.now members.now fields.now arguments.now sets.now selections.now given.now fragments.now nodes.now literals.now variables.now answers.now root) }
{
    let tables = Tables {
        pool,
        names,
        type_refs,
        types,
        members,
        fields,
        arguments,
        sets,
        selections,
        given,
        fragments,
        nodes,
        literals,
        variables,
        answers,
        root,
    };
    table_check(&tables)
}

// How deep the operation nests lists that a schema can loop through: the code, with the depth where it is 0 and the place
// where it is 8.
#[unsafe(no_mangle)]
pub extern "C" fn ladlehedge_depth_check(
    pool: &[u8],
    names: &[u32],
    type_refs: &[u32],
    types: &[u32],
    members: &[u32],
    fields: &[u32],
    arguments: &[u32],
    sets: &[u32],
    selections: &[u32],
    given: &[u32],
    fragments: &[u32],
    nodes: &[u32],
    literals: &[u32],
    variables: &[u32],
    answers: &[u32],
    root: u32,
    depth: &mut u32,
    place: &mut u32,
) -> u32
    ensures { Answers (record { code = result; depth = depth.new; place = place.new }) (depth_report (tables pool.now names.now type_refs.now types.now members.now fields.now arguments.now sets.now selections.now given.now fragments.now nodes.now literals.now variables.now answers.now root)) }
{
    let tables = Tables {
        pool,
        names,
        type_refs,
        types,
        members,
        fields,
        arguments,
        sets,
        selections,
        given,
        fragments,
        nodes,
        literals,
        variables,
        answers,
        root,
    };
    let answer = depth_check(&tables);
    *depth = answer.depth;
    *place = answer.place;
    answer.code
}

// A run in document order: the code, and how many bytes of text, words and error records it left in the two buffers.
#[unsafe(no_mangle)]
pub extern "C" fn ladlehedge_run(
    pool: &[u8],
    names: &[u32],
    type_refs: &[u32],
    types: &[u32],
    members: &[u32],
    fields: &[u32],
    arguments: &[u32],
    sets: &[u32],
    selections: &[u32],
    given: &[u32],
    fragments: &[u32],
    nodes: &[u32],
    literals: &[u32],
    variables: &[u32],
    answers: &[u32],
    root: u32,
    text: &mut [u8],
    errors: &mut [u32],
    bytes: &mut u32,
    words: &mut u32,
    records: &mut u32,
) -> u32
    ensures { Reports (length text.old) (length errors.old) (report_in_order (record { tables = tables pool.now names.now type_refs.now types.now members.now fields.now arguments.now sets.now selections.now given.now fragments.now nodes.now literals.now variables.now answers.now root }) (length text.old) (length errors.old)) (record { code = result; bytes = bytes.new; words = words.new; records = records.new }) text.new errors.new }
{
    let tables = Tables {
        pool,
        names,
        type_refs,
        types,
        members,
        fields,
        arguments,
        sets,
        selections,
        given,
        fragments,
        nodes,
        literals,
        variables,
        answers,
        root,
    };
    let handed = run(&tables, text, errors);
    *bytes = handed.bytes;
    *words = handed.words;
    *records = handed.records;
    handed.code
}

// The same in a given order: the choices say which group of a set comes next.
#[unsafe(no_mangle)]
pub extern "C" fn ladlehedge_run_ordered(
    pool: &[u8],
    names: &[u32],
    type_refs: &[u32],
    types: &[u32],
    members: &[u32],
    fields: &[u32],
    arguments: &[u32],
    sets: &[u32],
    selections: &[u32],
    given: &[u32],
    fragments: &[u32],
    nodes: &[u32],
    literals: &[u32],
    variables: &[u32],
    answers: &[u32],
    root: u32,
    choices: &[u32],
    text: &mut [u8],
    errors: &mut [u32],
    bytes: &mut u32,
    words: &mut u32,
    records: &mut u32,
) -> u32
    ensures { Reports (length text.old) (length errors.old) (report (record { tables = tables pool.now names.now type_refs.now types.now members.now fields.now arguments.now sets.now selections.now given.now fragments.now nodes.now literals.now variables.now answers.now root }) (length text.old) (length errors.old) choices.now) (record { code = result; bytes = bytes.new; words = words.new; records = records.new }) text.new errors.new }
{
    let tables = Tables {
        pool,
        names,
        type_refs,
        types,
        members,
        fields,
        arguments,
        sets,
        selections,
        given,
        fragments,
        nodes,
        literals,
        variables,
        answers,
        root,
    };
    let handed = run_ordered(&tables, choices, text, errors);
    *bytes = handed.bytes;
    *words = handed.words;
    *records = handed.records;
    handed.code
}
