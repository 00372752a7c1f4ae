// The fields beneath a group, and those of the operation.
ghost use Rattle.std.specs.Prelude.{◌+◌, ◌*◌, ◌≤◌, ◌<◌, length, IfErr};
ghost use Rattle.rows.specs.Document.{set_at};
ghost use Rattle.codes.specs.Outcome.{most_open};
ghost use Rattle.collecting.specs.Collecting.{Collectable, StopsCollecting, CollectsRows};
ghost use Rattle.planning.specs.Plans.{members_of, most_words, fields_of, CollectsChild, CollectsOwned, Gathers, Lookable};
ghost use Rattle.tables.specs.Tables.{lent};

use crate::layout::{
    FIELD_GROUP, FIELD_SELECTION, field_count, first_field, group_count, group_row, word,
};
use codes::outcome::Outcome;
use collecting::collect::{Gathered, NOTHING_YET, collect_fields};
use rows::document::{field_selection, set_at};
use rows::tables::Tables;

// "33 open fragments in one collection" are too far.
const MOST_OPEN: u32 = 32;

fn collect_child(
    tables: &Tables,
    list: &mut [u16],
    object: u32,
    row: u32,
    gathered: Gathered,
) -> Result<Gathered, Outcome>
    requires { let t = lent tables.now in Collectable t.types t.sets t.fragments list.old }
    ensures collects { let t = lent tables.now in CollectsChild t.types t.members t.sets t.selections t.fragments t.nodes t.variables object row list.old gathered result list.new }
    ensures refusal { IfErr result StopsCollecting }
{
    let field = field_selection(tables.selections, row);
    if field.set == 0 {
        return Ok(gathered);
    }
    let rows = set_at(tables.sets, field.set);
    collect_fields(tables, list, object, rows, MOST_OPEN, gathered)
}

// The child set of the field in a row, if the field belongs to the group.
fn collect_owned(
    tables: &Tables,
    plans: &[u16],
    list: &mut [u16],
    object: u32,
    row: usize,
    group: usize,
    gathered: Gathered,
) -> Result<Gathered, Outcome>
    requires { let t = lent tables.now in Collectable t.types t.sets t.fragments list.old × (8 * row + 1 < length plans.now) }
    ensures collects { let t = lent tables.now in CollectsOwned t.types t.members t.sets t.selections t.fragments t.nodes t.variables plans.now object row group list.old gathered result list.new }
    ensures refusal { IfErr result StopsCollecting }
{
    let owner = word(plans, row, FIELD_GROUP) as usize;
    if owner != group {
        return Ok(gathered);
    }
    let field = word(plans, row, FIELD_SELECTION) as u32;
    collect_child(tables, list, object, field, gathered)
}

// The child sets of the fields of a group that has several.
fn collect_children(
    tables: &Tables,
    plans: &[u16],
    list: &mut [u16],
    object: u32,
    first: usize,
    fields: usize,
    group: usize,
) -> Result<Gathered, Outcome>
    requires { let t = lent tables.now in Collectable t.types t.sets t.fragments list.old × (8 * (first + fields) ≤ length plans.now) × (length plans.now ≤ most_words) }
    ensures gathers { let t = lent tables.now in Gathers t.types t.members t.sets t.selections t.fragments t.nodes t.variables object (fields_of plans.now first group fields) list.old result list.new }
    ensures refusal { IfErr result StopsCollecting }
{
    let mut so_far = NOTHING_YET;
    for i in 0..fields {
        so_far = collect_owned(tables, plans, list, object, first + i, group, so_far)?;
    }
    Ok(so_far)
}

// The fields beneath a group.
pub fn collect_group(
    tables: &Tables,
    plans: &[u16],
    list: &mut [u16],
    object: u32,
    plan: usize,
    group: usize,
) -> Result<Gathered, Outcome>
    requires { let t = lent tables.now in Collectable t.types t.sets t.fragments list.old × Lookable plans.now plan group }
    ensures gathers { let t = lent tables.now in Gathers t.types t.members t.sets t.selections t.fragments t.nodes t.variables object (members_of plans.now plan group) list.old result list.new }
    ensures refusal { IfErr result StopsCollecting }
{
    let groups = group_count(plans, plan);
    let fields = field_count(plans, plan);
    if groups == fields {
        return collect_child(
            tables,
            list,
            object,
            first_field(plans, plan, group),
            NOTHING_YET,
        );
    }
    let first = group_row(plan, groups);
    collect_children(tables, plans, list, object, first, fields, group)
}

// The fields of the operation's set.
pub fn collect_operation(tables: &Tables, list: &mut [u16], root: u32) -> Result<Gathered, Outcome>
    requires { let t = lent tables.now in Collectable t.types t.sets t.fragments list.old }
    ensures collects { let t = lent tables.now in CollectsRows t.types t.members t.sets t.selections t.fragments t.nodes t.variables most_open root (set_at t.sets 0) list.old (record { visited = 0; count = 0 }) result list.new }
    ensures refusal { IfErr result StopsCollecting }
{
    collect_fields(
        tables,
        list,
        root,
        set_at(tables.sets, 0),
        MOST_OPEN,
        NOTHING_YET,
    )
}
