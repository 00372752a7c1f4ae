// CollectFields: the rows of the fields of a selection set, in the order in which they are met.
ghost use Rattle.std.specs.Prelude.{◌≡◌, ◌+◌, ◌≤◌, ◌<◌, length, IfErr};
ghost use Rattle.rows.specs.Limits.{most_selections};
ghost use Rattle.codes.specs.Outcome.{most_collected};
ghost use Rattle.collecting.specs.Collecting.{Collectable, StopsCollecting, CollectsField, CollectsSet, CollectsSpread, CollectsInline, CollectsSelection, CollectsRows};
ghost use Rattle.tables.specs.Tables.{lent};

use crate::conditions::is_dropped;
use crate::fragments::{does_fragment_type_apply, inline_applies};
use crate::visited::{is_visited, with_visited};
use codes::outcome::Outcome;
use lookup::named::fragment_named;
use rows::document::{Selected, fragment_at, selection_at, set_at};
use rows::layout::Range;
use rows::tables::Tables;

// "A 129th field is collected for one set" is code 4.
pub const MOST_COLLECTED: usize = 128;

// What has been collected: the fragments visited, a bit for each row, and how many fields. The fields stand in an array that the caller lends, since
// there is no heap; the two words beside it go by value from step to step.
#[derive(Clone, Copy)]
pub struct Gathered {
    pub visited: u64,
    pub count: usize,
}

pub const NOTHING_YET: Gathered = Gathered {
    visited: 0,
    count: 0,
};

// What is gathered with one field more; or why collecting stops: a 33rd fragment would be open, or a 129th field collected.
fn collect_field(list: &mut [u16], row: u32, gathered: Gathered) -> Result<Gathered, Outcome>
    requires { (length list.old ≡ most_collected) × (row < most_selections) }
    ensures collects { CollectsField row list.old gathered result list.new }
    ensures refusal { IfErr result StopsCollecting }
{
    let count = gathered.count;
    if MOST_COLLECTED <= count {
        return Err(Outcome::TooManyFields);
    }
    list[count] = row as u16;
    Ok(Gathered {
        visited: gathered.visited,
        count: count + 1,
    })
}

// The selections of a fragment's set, one more fragment being open. `room` is how many may still be opened.
#[cycle(collect_fields_collect_inline_collect_selection_collect_spread_open_set)]
fn open_set(
    tables: &Tables,
    list: &mut [u16],
    object: u32,
    set: u32,
    room: u32,
    gathered: Gathered,
) -> Result<Gathered, Outcome>
    requires { let t = lent tables.now in Collectable t.types t.sets t.fragments list.old }
    ensures collects { let t = lent tables.now in CollectsSet t.types t.members t.sets t.selections t.fragments t.nodes t.variables room object set list.old gathered result list.new }
    ensures refusal { IfErr result StopsCollecting }
{
    if room == 0 {
        return Err(Outcome::TooFar);
    }
    let rows = set_at(tables.sets, set);
    collect_fields(tables, list, object, rows, room - 1, gathered)
}

// "A spread is marked visited after that test and before lookup and type test." A name that no fragment has needs no mark.
#[cycle(collect_fields_collect_inline_collect_selection_collect_spread_open_set)]
fn collect_spread(
    tables: &Tables,
    list: &mut [u16],
    object: u32,
    name: u32,
    room: u32,
    gathered: Gathered,
) -> Result<Gathered, Outcome>
    requires { let t = lent tables.now in Collectable t.types t.sets t.fragments list.old }
    ensures collects { let t = lent tables.now in CollectsSpread t.types t.members t.sets t.selections t.fragments t.nodes t.variables room object name list.old gathered result list.new }
    ensures refusal { IfErr result StopsCollecting }
{
    let found = fragment_named(tables.fragments, name);
    let Some(row) = found else {
        return Ok(gathered);
    };
    if is_visited(gathered.visited, row) {
        return Ok(gathered);
    }
    let marked = Gathered {
        visited: with_visited(gathered.visited, row),
        count: gathered.count,
    };
    let fragment = fragment_at(tables.fragments, row);
    if !does_fragment_type_apply(tables, object, fragment.condition) {
        return Ok(marked);
    }
    open_set(tables, list, object, fragment.set, room, marked)
}

#[cycle(collect_fields_collect_inline_collect_selection_collect_spread_open_set)]
fn collect_inline(
    tables: &Tables,
    list: &mut [u16],
    object: u32,
    condition: Option<u32>,
    set: u32,
    room: u32,
    gathered: Gathered,
) -> Result<Gathered, Outcome>
    requires { let t = lent tables.now in Collectable t.types t.sets t.fragments list.old }
    ensures collects { let t = lent tables.now in CollectsInline t.types t.members t.sets t.selections t.fragments t.nodes t.variables room object condition set list.old gathered result list.new }
    ensures refusal { IfErr result StopsCollecting }
{
    if !inline_applies(tables, object, condition) {
        return Ok(gathered);
    }
    open_set(tables, list, object, set, room, gathered)
}

#[cycle(collect_fields_collect_inline_collect_selection_collect_spread_open_set)]
fn collect_selection(
    tables: &Tables,
    list: &mut [u16],
    object: u32,
    row: u32,
    room: u32,
    gathered: Gathered,
) -> Result<Gathered, Outcome>
    requires { let t = lent tables.now in (Collectable t.types t.sets t.fragments list.old) × (row < most_selections) }
    ensures collects { let t = lent tables.now in CollectsSelection t.types t.members t.sets t.selections t.fragments t.nodes t.variables room object row list.old gathered result list.new }
    ensures refusal { IfErr result StopsCollecting }
{
    let selection = selection_at(tables.selections, row);
    let what = selection.what;
    let skip = selection.skip;
    let include = selection.include;
    if is_dropped(tables, skip, include) {
        return Ok(gathered);
    }
    match what {
        Selected::Field(_) => collect_field(list, row, gathered),
        Selected::Spread { name } => collect_spread(tables, list, object, name, room, gathered),
        Selected::Inline { condition, set } => collect_inline(
            tables, list, object, condition, set, room, gathered,
        ),
        Selected::Unknown => Ok(gathered),
    }
}

// CollectFields(objectType, selectionSet, variableValues, visitedFragments): the selections in these rows, after what was gathered before.
#[cycle(collect_fields_collect_inline_collect_selection_collect_spread_open_set)]
pub fn collect_fields(
    tables: &Tables,
    list: &mut [u16],
    object: u32,
    rows: Range,
    room: u32,
    gathered: Gathered,
) -> Result<Gathered, Outcome>
    requires { let t = lent tables.now in (Collectable t.types t.sets t.fragments list.old) × (rows.first + rows.count ≤ most_selections) }
    ensures collects { let t = lent tables.now in CollectsRows t.types t.members t.sets t.selections t.fragments t.nodes t.variables room object rows list.old gathered result list.new }
    ensures refusal { IfErr result StopsCollecting }
{
    let first = rows.first;
    let count = rows.count;
    let mut so_far = gathered;
    for i in 0..count {
        so_far = collect_selection(tables, list, object, first + i, room, so_far)?;
    }
    Ok(so_far)
}
