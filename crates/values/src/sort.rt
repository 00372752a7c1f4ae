// The sort of a node's or a literal's value, which the rules on leaves tell apart.
ghost use Rattle.std.specs.Prelude.{◌≡◌};
ghost use Rattle.rows.specs.Json.{node_at, literal_at};
ghost use Rattle.graphql.specs.Json.{natural, negative, sort_of};
ghost use Rattle.values.specs.Plain.{said, node_sort};
ghost use Rattle.values.specs.Literals.{literal_sort};

use crate::plain::integer;
use rows::json::{Literal, Node, literal_at, node_at};

// An integer that fits 32 bits, signed, is an int; another that fits 64 bits, signed, a long; and a larger one is huge.
#[derive(Clone, Copy, PartialEq, Eq, Debug)]
pub enum Sort {
    Null,
    Boolean,
    Int,
    Long,
    Huge,
    Float,
    String,
    Container,
}

// 2^31 and 2^63
const INTS: u64 = 2147483648;

const LONGS: u64 = 9223372036854775808;

fn sort_of_natural(n: u64) -> Sort
    ensures { result ≡ said (sort_of (natural n)) }
{
    if n < INTS {
        return Sort::Int;
    }
    if n < LONGS {
        return Sort::Long;
    }
    Sort::Huge
}

// A negative integer, by how far below zero it is.
fn sort_of_negative(magnitude: u64) -> Sort
    ensures { result ≡ said (sort_of (negative magnitude)) }
{
    if magnitude <= INTS {
        return Sort::Int;
    }
    Sort::Long
}

impl From<Node> for Sort {
    ghost from_gives = { λ node sort. sort ≡ said (node_sort node) };

    fn from(node: Node) -> Sort {
        match node {
            Node::Null | Node::Unknown => Sort::Null,
            Node::False | Node::True => Sort::Boolean,
            Node::Natural { low, high } => sort_of_natural(integer(low, high)),
            Node::Negative { low, high } => sort_of_negative(integer(low, high)),
            Node::Float(_) => Sort::Float,
            Node::String(_) => Sort::String,
            Node::Array(_) | Node::Object(_) => Sort::Container,
        }
    }
}

pub fn sort_of(nodes: &[u32], row: u32) -> Sort
    ensures { result ≡ said (node_sort (node_at nodes.now row)) }
{
    Sort::from(node_at(nodes, row))
}

// A variable has no sort here: null.
impl From<Literal> for Sort {
    ghost from_gives = { λ literal sort. sort ≡ said (literal_sort literal) };

    fn from(literal: Literal) -> Sort {
        match literal {
            Literal::Null | Literal::Variable(_) | Literal::Unknown => Sort::Null,
            Literal::False | Literal::True => Sort::Boolean,
            Literal::Natural(n) => sort_of_natural(n as u64),
            Literal::Negative(n) => sort_of_negative(n as u64),
            Literal::Float(_) => Sort::Float,
            Literal::String(_) | Literal::Enum(_) => Sort::String,
            Literal::List(_) | Literal::Object(_) => Sort::Container,
        }
    }
}

pub fn literal_sort(literals: &[u32], row: u32) -> Sort
    ensures { result ≡ said (literal_sort (literal_at literals.now row)) }
{
    Sort::from(literal_at(literals, row))
}
