// Nodes that are no containers.
ghost use Rattle.std.specs.Prelude.{◌≡◌, ◌+◌, ◌*◌};
ghost use Rattle.writing.specs.Wrote.{Writes};
ghost use Rattle.graphql.specs.Json.{print};
ghost use Rattle.values.specs.Plain.{plain_value};

use rows::json::Node;
use rows::strings::text_of;
use tokens::json::{put_false, put_natural, put_negative, put_null, put_string, put_true};
use writing::write::put_all;

// An integer of two words, the low half first.
pub fn integer(low: u32, high: u32) -> u64
    ensures { result ≡ low + 4294967296 * high }
{
    (low as u64) + 4294967296 * (high as u64)
}

// The text of a node that is no container. Nothing is asked of a container's parts here: it is null.
pub fn put_plain(pool: &[u8], text: &mut [u8], at: usize, node: Node) -> usize
    ensures { Writes text.old text.new at result (print (plain_value pool.now node)) }
{
    match node {
        Node::False => put_false(text, at),
        Node::True => put_true(text, at),
        Node::Natural { low, high } => put_natural(text, at, integer(low, high)),
        Node::Negative { low, high } => put_negative(text, at, integer(low, high)),
        Node::Float(spelling) => put_all(text, at, text_of(pool, spelling)),
        Node::String(string) => put_string(text, at, text_of(pool, string)),
        _ => put_null(text, at),
    }
}
