// Nodes, literals, the values of variables and answers: one loop a table for all that is asked of each row.
ghost use Rattle.std.specs.Prelude.{◌≡◌, ◌&&◌, ◌<◌, Bool, ℕ};
ghost use Rattle.rows.specs.Layout.{node_width, literal_width, variable_width, answer_width};
ghost use Rattle.rows.specs.Rows.{all, rows_of};
ghost use Rattle.rows.specs.Json.{literal_of};
ghost use Rattle.rules.specs.Json.{node_keys_differ, literal_parts, variable_row};
ghost use Rattle.rules.specs.Answers.{answer_row, answer_names_differ};
ghost use Rattle.distinct.specs.Plain.{is_plain};
ghost use Rattle.tables.specs.ByTable.{node_holds, literal_holds, plain_answer, Looked, conj, values_tests};

use distinct::columns::{Noted, is_distinct_column};
use distinct::keys::all_node_keys_differ;
use rows::answers::ANSWER_WIDTH;
use rows::columns::{
    ANSWER_KIND, ANSWER_NAME, ANSWER_ONE, ANSWER_THREE, ANSWER_TWO, LITERAL_KEY, LITERAL_KIND,
    LITERAL_ONE, LITERAL_TWO, NODE_KEY_LENGTH, NODE_KEY_START, NODE_KIND, NODE_ONE, NODE_TWO,
    VARIABLE_NAME,
};
use rows::json::{LITERAL_WIDTH, NODE_WIDTH, VARIABLE_WIDTH};
use rows::layout::{Range, row_count, word};
use rows::limits::{MOST_ANSWERS, MOST_LITERALS};
use rows::strings::Text;
use rules::answers::{LEAF_ANSWER, OBJECT_ANSWER, answer_is_lawful, root_answer_is_object};
use rules::json::{
    NEGATIVE_NODE, OBJECT_LITERAL, OBJECT_NODE, literal_is_lawful, node_is_lawful, variable_row,
};
use rules::strings::{Pool, is_string};

// `count` is how many nodes there are.
#[tactic(auto, unfolding(crate::specs::ByTable::node_holds, rows::specs::Json::node_at, rows::specs::Json::node_key))]
fn node_holds(pool: &Pool, count: u32, nodes: &[u32], row: u32) -> bool
    requires row_bound { row < rows_of nodes.now node_width }
    ensures { result ≡ node_holds pool.now count nodes.now row }
{
    let key = Text {
        start: word(nodes, NODE_WIDTH, row, NODE_KEY_START),
        len: word(nodes, NODE_WIDTH, row, NODE_KEY_LENGTH),
    };
    if !is_string(pool, key) {
        return false;
    }
    let kind = word(nodes, NODE_WIDTH, row, NODE_KIND);
    // Most nodes; nothing is asked of their words.
    if kind < NEGATIVE_NODE {
        return true;
    }
    let a = word(nodes, NODE_WIDTH, row, NODE_ONE);
    let b = word(nodes, NODE_WIDTH, row, NODE_TWO);
    node_is_lawful(pool, count, row, kind, a, b)
}

// A node that has fewer than two keys to compare.
#[tactic(auto, using(distinct::proofs::Plain::no_object), unfolding(rows::specs::Json::node_at))]
fn node_is_plain(nodes: &[u32], row: u32) -> bool
    requires { row < rows_of nodes.now node_width }
    ensures { result ≡ is_plain nodes.now row }
{
    (word(nodes, NODE_WIDTH, row, NODE_KIND) != OBJECT_NODE)
        || (word(nodes, NODE_WIDTH, row, NODE_TWO) < 2)
}

// Whether each row holds, and if so whether each is known to have nothing to compare. Both are asked in one pass, since two take a third
// longer.
fn look_at_rows<H: Fn(u32) -> bool, P: Fn(u32) -> bool>(
    count: u32,
    holds: H,
    is_plain: P,
) -> Option<bool>
    requires holds_callable { (row : ℕ) → row < count → H.pre holds row }
    requires plain_callable { (row : ℕ) → row < count → P.pre is_plain row }
    ensures { (p q : ℕ → Bool) → ((row : ℕ) (b : Bool) → H.post holds row b → b ≡ p row) → ((row : ℕ) (b : Bool) → P.post is_plain row b → b ≡ q row) → Looked p q count result }
{
    let mut plain = true;
    for row in 0..count {
        if !holds(row) {
            return None;
        }
        plain = plain & is_plain(row);
    }
    Some(plain)
}

fn nodes_hold(pool: &Pool, nodes: &[u32]) -> bool
    ensures { result ≡ (all (node_holds pool.now (rows_of nodes.now node_width) nodes.now) (rows_of nodes.now node_width) && all (node_keys_differ pool.now nodes.now) (rows_of nodes.now node_width)) }
{
    let count = row_count(nodes, NODE_WIDTH);
    let seen = look_at_rows(
        count,
        |row| node_holds(pool, count, nodes, row),
        |row| node_is_plain(nodes, row),
    );
    match seen {
        None => false,
        Some(plain) => plain || all_node_keys_differ(pool.bytes(), nodes),
    }
}

// Of a literal's words: only an object's parts have keys, and they differ.
fn literal_keys_differ(keys: &Noted<LITERAL_WIDTH, LITERAL_KEY>, kind: u32, a: u32, b: u32) -> bool
    ensures { result ≡ literal_parts keys.now (literal_of kind a b) }
{
    (kind != OBJECT_LITERAL) || keys.is_distinct(Range { first: a, count: b })
}

// `count` is how many literals there are; the notes are on their keys.
#[tactic(auto, unfolding(crate::specs::ByTable::literal_holds, rows::specs::Json::literal_at))]
fn literal_holds(
    pool: &Pool,
    names: u32,
    count: u32,
    keys: &Noted<LITERAL_WIDTH, LITERAL_KEY>,
    row: u32,
) -> bool
    requires { row < rows_of keys.now literal_width }
    ensures { result ≡ literal_holds pool.now names count keys.now row }
{
    let literals = keys.table();
    let kind = word(literals, LITERAL_WIDTH, row, LITERAL_KIND);
    let a = word(literals, LITERAL_WIDTH, row, LITERAL_ONE);
    let b = word(literals, LITERAL_WIDTH, row, LITERAL_TWO);
    let key = word(literals, LITERAL_WIDTH, row, LITERAL_KEY);
    let lawful = (key < names) & literal_is_lawful(pool, names, count, row, kind, a, b);
    lawful && literal_keys_differ(keys, kind, a, b)
}

fn literals_hold(pool: &Pool, names: u32, literals: &[u32]) -> bool
    ensures { result ≡ all (literal_holds pool.now names (rows_of literals.now literal_width) literals.now) (rows_of literals.now literal_width) }
{
    let mut since = [0u16; MOST_LITERALS + 1];
    let keys = Noted::new(literals, &mut since);
    let count = row_count(literals, LITERAL_WIDTH);
    (0..count).all(|row| literal_holds(pool, names, count, &keys, row))
}

fn each_variable_holds(names: u32, nodes: u32, variables: &[u32]) -> bool
    ensures { result ≡ all (variable_row names nodes variables.now) (rows_of variables.now variable_width) }
{
    let count = row_count(variables, VARIABLE_WIDTH);
    (0..count).all(|row| variable_row(names, nodes, variables, row))
}

// `count` is how many answers there are.
#[tactic(auto, unfolding(rows::specs::Answers::answer_at))]
fn answer_holds(names: u32, nodes: u32, count: u32, answers: &[u32], row: u32) -> bool
    requires { row < rows_of answers.now answer_width }
    ensures { result ≡ answer_row names nodes count answers.now row }
{
    let kind = word(answers, ANSWER_WIDTH, row, ANSWER_KIND);
    let name = word(answers, ANSWER_WIDTH, row, ANSWER_NAME);
    let a = word(answers, ANSWER_WIDTH, row, ANSWER_ONE);
    // Most answers are leaves.
    if kind == LEAF_ANSWER {
        return (name < names) & (a < nodes);
    }
    let b = word(answers, ANSWER_WIDTH, row, ANSWER_TWO);
    let c = word(answers, ANSWER_WIDTH, row, ANSWER_THREE);
    (name < names) & answer_is_lawful(names, nodes, count, kind, a, b, c)
}

// An answer that has fewer than two names to compare.
fn answer_is_plain(answers: &[u32], row: u32) -> bool
    requires { row < rows_of answers.now answer_width }
    ensures { result ≡ plain_answer answers.now row }
{
    (word(answers, ANSWER_WIDTH, row, ANSWER_KIND) != OBJECT_ANSWER)
        || (word(answers, ANSWER_WIDTH, row, ANSWER_THREE) < 2)
}

fn names_in_answer_differ(names: &Noted<ANSWER_WIDTH, ANSWER_NAME>, row: u32) -> bool
    requires { row < rows_of names.now answer_width }
    ensures { result ≡ answer_names_differ names.now row }
{
    let answers = names.table();
    if word(answers, ANSWER_WIDTH, row, ANSWER_KIND) != OBJECT_ANSWER {
        return true;
    }
    let rows = Range {
        first: word(answers, ANSWER_WIDTH, row, ANSWER_TWO),
        count: word(answers, ANSWER_WIDTH, row, ANSWER_THREE),
    };
    names.is_distinct(rows)
}

fn answer_names_differ(answers: &[u32]) -> bool
    ensures { result ≡ all (answer_names_differ answers.now) (rows_of answers.now answer_width) }
{
    let mut since = [0u16; MOST_ANSWERS + 1];
    let names = Noted::new(answers, &mut since);
    let count = row_count(answers, ANSWER_WIDTH);
    (0..count).all(|row| names_in_answer_differ(&names, row))
}

fn answers_hold(names: u32, nodes: u32, answers: &[u32]) -> bool
    ensures { result ≡ (all (answer_row names nodes (rows_of answers.now answer_width) answers.now) (rows_of answers.now answer_width) && all (answer_names_differ answers.now) (rows_of answers.now answer_width)) }
{
    let count = row_count(answers, ANSWER_WIDTH);
    let seen = look_at_rows(
        count,
        |row| answer_holds(names, nodes, count, answers, row),
        |row| answer_is_plain(answers, row),
    );
    match seen {
        None => false,
        Some(plain) => plain || answer_names_differ(answers),
    }
}

#[tactic(auto, unfolding(crate::specs::ByTable::conj))]
pub(crate) fn values_are_lawful(
    pool: &[u8],
    names: u32,
    nodes: &[u32],
    literals: &[u32],
    variables: &[u32],
    answers: &[u32],
) -> bool
    ensures { result ≡ conj (values_tests pool.now names nodes.now literals.now variables.now answers.now) }
{
    let pool = Pool::read(pool);
    let node_count = row_count(nodes, NODE_WIDTH);
    nodes_hold(&pool, nodes)
        && literals_hold(&pool, names, literals)
        && each_variable_holds(names, node_count, variables)
        && is_distinct_column(variables, VARIABLE_WIDTH, VARIABLE_NAME)
        && answers_hold(names, node_count, answers)
        && root_answer_is_object(answers)
}
