// JSON nodes, literals and the values of variables.
ghost use Rattle.std.specs.Prelude.{◌≡◌, ◌<◌, ◌^◌};
ghost use Rattle.rows.specs.Json.{node_of, node_at, node_key, literal_of, literal_at, literal_place, literal_key, variable_at};

use crate::columns::{
    LITERAL_KEY, LITERAL_KIND, LITERAL_ONE, LITERAL_PLACE, LITERAL_TWO, NODE_KEY_LENGTH,
    NODE_KEY_START, NODE_KIND, NODE_ONE, NODE_TWO, VARIABLE_NAME, VARIABLE_NODE,
};
use crate::layout::{Range, cell};
use crate::strings::Text;

pub const NODE_WIDTH: usize = 5;

pub const LITERAL_WIDTH: usize = 5;

pub const VARIABLE_WIDTH: usize = 2;

// A JSON value. Of an integer the low half stands first; a negative one is given by its magnitude.
#[derive(Clone, Copy, PartialEq, Eq, Debug)]
pub enum Node {
    Null,
    False,
    True,
    Natural { low: u32, high: u32 },
    Negative { low: u32, high: u32 },
    Float(Text),
    String(Text),
    Array(Range),
    Object(Range),
    Unknown,
}

// A literal of the document or of a default. An integer is given by its magnitude.
#[derive(Clone, Copy, PartialEq, Eq, Debug)]
pub enum Literal {
    Null,
    False,
    True,
    Natural(u32),
    Negative(u32),
    Float(Text),
    String(Text),
    List(Range),
    Object(Range),
    Enum(u32),
    Variable(u32),
    Unknown,
}

#[derive(Clone, Copy, PartialEq, Eq, Debug)]
pub struct VariableValue {
    pub name: u32,
    pub node: u32,
}

// It takes several words, so it stays a function: `From` of a tuple is no plainer.
fn node_of(kind: u32, a: u32, b: u32) -> Node
    ensures { result ≡ node_of kind a b }
{
    match kind {
        0 => Node::Null,
        1 => Node::False,
        2 => Node::True,
        3 => Node::Natural { low: a, high: b },
        4 => Node::Negative { low: a, high: b },
        5 => Node::Float(Text { start: a, len: b }),
        6 => Node::String(Text { start: a, len: b }),
        7 => Node::Array(Range { first: a, count: b }),
        8 => Node::Object(Range { first: a, count: b }),
        _ => Node::Unknown,
    }
}

#[tactic(auto, unfolding(crate::specs::Json::node_at))]
pub fn node_at(nodes: &[u32], row: u32) -> Node
    ensures { result ≡ node_at nodes.now row }
{
    let at = row as usize;
    let kind = cell(nodes, NODE_WIDTH, at, NODE_KIND);
    let a = cell(nodes, NODE_WIDTH, at, NODE_ONE);
    let b = cell(nodes, NODE_WIDTH, at, NODE_TWO);
    node_of(kind, a, b)
}

// The key of a node that is a child of an object.
#[tactic(auto, unfolding(crate::specs::Json::node_key))]
pub fn node_key(nodes: &[u32], row: usize) -> Text
    requires { row < 2 ^ 40 }
    ensures { result ≡ node_key nodes.now row }
{
    Text {
        start: cell(nodes, NODE_WIDTH, row, NODE_KEY_START),
        len: cell(nodes, NODE_WIDTH, row, NODE_KEY_LENGTH),
    }
}

// It takes several words, so it stays a function: `From` of a tuple is no plainer.
fn literal_of(kind: u32, a: u32, b: u32) -> Literal
    ensures { result ≡ literal_of kind a b }
{
    match kind {
        0 => Literal::Null,
        1 => Literal::False,
        2 => Literal::True,
        3 => Literal::Natural(a),
        4 => Literal::Negative(a),
        5 => Literal::Float(Text { start: a, len: b }),
        6 => Literal::String(Text { start: a, len: b }),
        7 => Literal::List(Range { first: a, count: b }),
        8 => Literal::Object(Range { first: a, count: b }),
        9 => Literal::Enum(a),
        10 => Literal::Variable(a),
        _ => Literal::Unknown,
    }
}

#[tactic(auto, unfolding(crate::specs::Json::literal_at))]
pub fn literal_at(literals: &[u32], row: u32) -> Literal
    ensures { result ≡ literal_at literals.now row }
{
    let at = row as usize;
    let kind = cell(literals, LITERAL_WIDTH, at, LITERAL_KIND);
    let a = cell(literals, LITERAL_WIDTH, at, LITERAL_ONE);
    let b = cell(literals, LITERAL_WIDTH, at, LITERAL_TWO);
    literal_of(kind, a, b)
}

pub fn literal_place(literals: &[u32], row: u32) -> u32
    ensures { result ≡ literal_place literals.now row }
{
    cell(literals, LITERAL_WIDTH, row as usize, LITERAL_PLACE)
}

// The key, a name, of a literal that is a child of an object.
pub fn literal_key(literals: &[u32], row: u32) -> u32
    ensures { result ≡ literal_key literals.now row }
{
    cell(literals, LITERAL_WIDTH, row as usize, LITERAL_KEY)
}

#[tactic(auto, unfolding(crate::specs::Json::variable_at))]
pub fn variable_at(variables: &[u32], row: u32) -> VariableValue
    ensures { result ≡ variable_at variables.now row }
{
    let at = row as usize;
    VariableValue {
        name: cell(variables, VARIABLE_WIDTH, at, VARIABLE_NAME),
        node: cell(variables, VARIABLE_WIDTH, at, VARIABLE_NODE),
    }
}
