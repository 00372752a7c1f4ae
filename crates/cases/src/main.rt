// "Runs that settle a reading": document 01's cases A to N, run. A case's tables are a table file (docs/TABLES.md).
#![tactic(auto)]

use table_file::{Held, layout};
use verdict::answers::print_run;
use verdict::file::Room;
use verdict::runs::{run_by_choices, run_in_order};
use verdict::{file, say};
use writing::write::put_all;

const ROOM: usize = 64;

// A case: its letter; what of its schema and of its operation it may share with others, and what is its own; its choices; and how many bytes of
// text there is room for.
#[derive(Clone, Copy)]
struct Case {
    name: &'static str,
    shape: &'static str,
    own: &'static str,
    choices: &'static [u32],
    room: usize,
}

// The schema that all cases share.
const SCHEMA: &str = "[names]\n\
    reserved \"Query\" \"Any\" \"f\" \"g\" \"a\" \"b\" \"x\" \"y\" \"v\"\n\
    [types]\n\
    'Int scalar 0 0 0 0\n\
    'Float scalar 0 0 0 0\n\
    'Any scalar 0 0 0 0\n\
    [root]\n\
    3\n\
    [type_refs]\n\
    named nullable 'Int # 0\n\
    named non-null 'Int # 1\n\
    named nullable 'Any # 2\n\
    list nullable 0 # 3\n";

// `{f}` with `f: T`. The text behind it begins with T, which is row 4, and has the answer to f.
const ONE: &str = "[types]\n'Query object 0 1 0 0\n\
    [fields]\n'f 4 none 100 0 0\n\
    [sets]\n0 1\n\
    [selections]\nfield none none 300 'f 'f 0 0 none 4\n\
    [answers]\nobject 0 'Query 1 1\n\
    [type_refs]\n";

// `{a b}`, `Int!`, both errors.
const BOTH: &str = "[types]\n'Query object 0 2 0 0\n\
    [fields]\n'a 1 none 100 0 0\n'b 1 none 101 0 0\n\
    [sets]\n0 2\n\
    [selections]\n\
    field none none 300 'a 'a 0 0 none 1\n\
    field none none 301 'b 'b 0 0 none 1\n\
    [answers]\nobject 0 'Query 1 2\nerror 'a 0 0 0\nerror 'b 0 0 0\n";

const CASES: [Case; 14] = [
    // `[Int]`, 42 then error.
    Case {
        name: "A",
        shape: ONE,
        own: "list nullable 0\n\
            [nodes]\ninteger 42L 0 0\n\
            [answers]\nlist 'f 2 2 0\nleaf 0 0 0 0\nerror 0 0 0 0\n",
        choices: &[],
        room: ROOM,
    },
    // `[Int]`, 42, skip, `"x"`.
    Case {
        name: "B",
        shape: ONE,
        own: "list nullable 0\n\
            [nodes]\ninteger 42L 0 0\nstring \"x\" 0 0\n\
            [answers]\nlist 'f 2 3 0\nleaf 0 0 0 0\nskip 0 0 0 0\nleaf 0 1 0 0\n",
        choices: &[],
        room: ROOM,
    },
    // `[Int!]!`, 1 then null.
    Case {
        name: "C",
        shape: ONE,
        own: "list non-null 1\n\
            [nodes]\ninteger 1L 0 0\nnull 0 0 0 0\n\
            [answers]\nlist 'f 2 2 0\nleaf 0 0 0 0\nleaf 0 1 0 0\n",
        choices: &[],
        room: ROOM,
    },
    // `[Int!]`, 1 then null.
    Case {
        name: "D",
        shape: ONE,
        own: "list nullable 1\n\
            [nodes]\ninteger 1L 0 0\nnull 0 0 0 0\n\
            [answers]\nlist 'f 2 2 0\nleaf 0 0 0 0\nleaf 0 1 0 0\n",
        choices: &[],
        room: ROOM,
    },
    // Int, 2147483648.
    Case {
        name: "E",
        shape: ONE,
        own: "named nullable 'Int\n[nodes]\ninteger 2147483648L 0 0\n[answers]\nleaf 'f 0 0 0\n",
        choices: &[],
        room: ROOM,
    },
    // Int, 9223372036854775808.
    Case {
        name: "F",
        shape: ONE,
        own: "named nullable 'Int\n[nodes]\ninteger 9223372036854775808L 0 0\n[answers]\nleaf 'f 0 0 0\n",
        choices: &[],
        room: ROOM,
    },
    // Float, integer 1.
    Case {
        name: "G",
        shape: ONE,
        own: "named nullable 'Float\n[nodes]\ninteger 1L 0 0\n[answers]\nleaf 'f 0 0 0\n",
        choices: &[],
        room: ROOM,
    },
    // `{x:f @skip(if:$v) y:g x:f}`, v absent, f 1, g 2, both Int.
    Case {
        name: "H",
        shape: "[types]\n'Query object 0 2 0 0\n\
            [fields]\n'f 0 none 100 0 0\n'g 0 none 101 0 0\n",
        own: "[sets]\n0 3\n\
            [selections]\n\
            field $v none 300 'f 'x 0 0 none 0\n\
            field none none 301 'g 'y 0 0 none 0\n\
            field none none 302 'f 'x 0 0 none 0\n\
            [nodes]\ninteger 1L 0 0\ninteger 2L 0 0\n\
            [answers]\nobject 0 'Query 1 2\nleaf 'f 0 0 0\nleaf 'g 1 0 0\n",
        choices: &[],
        room: ROOM,
    },
    // `{f @skip(if:true) @include(if:true)}`.
    Case {
        name: "I",
        shape: "[types]\n'Query object 0 1 0 0\n\
            [fields]\n'f 0 none 100 0 0\n",
        own: "[sets]\n0 1\n\
            [selections]\nfield true true 300 'f 'f 0 0 none 0\n\
            [answers]\nobject 0 'Query 1 0\n",
        choices: &[],
        room: ROOM,
    },
    Case {
        name: "J",
        shape: BOTH,
        own: "",
        choices: &[],
        room: ROOM,
    },
    // The same in another order.
    Case {
        name: "K",
        shape: BOTH,
        own: "",
        choices: &[1],
        room: ROOM,
    },
    // Int 1, buffer of 1 byte.
    Case {
        name: "L",
        shape: ONE,
        own: "named nullable 'Int\n[nodes]\ninteger 1L 0 0\n[answers]\nleaf 'f 0 0 0\n",
        choices: &[],
        room: 1,
    },
    // `[[Int]]` argument `[1,2]` echoed as a custom scalar.
    Case {
        name: "M",
        shape: "list nullable 3 # 4\n\
            [types]\n'Query object 0 1 0 0\n\
            [fields]\n'f 2 none 100 0 1\n\
            [arguments]\n'x 4 none 200\n",
        own: "[sets]\n0 1\n\
            [selections]\nfield none none 300 'f 'f 0 1 none 2\n\
            [given]\n'x 0\n\
            [literals]\nlist 1 2 400 0\ninteger 1 0 401 0\ninteger 2 0 402 0\n\
            [answers]\nobject 0 'Query 1 1\necho 'f 'x 0 0\n",
        choices: &[],
        room: ROOM,
    },
    // `[Int]`, leaf 5.
    Case {
        name: "N",
        shape: ONE,
        own: "list nullable 0\n[nodes]\ninteger 5L 0 0\n[answers]\nleaf 'f 0 0 0\n",
        choices: &[],
        room: ROOM,
    },
];

// Runs, in document order where there are no choices, and prints the answer.
fn answer_run(out: &impl Print, held: &Held, choices: &[u32], text: &mut [u8], errors: &mut [u32]) {
    let run = if choices.is_empty() {
        run_in_order(held, text, errors)
    } else {
        run_by_choices(held, choices, text, errors)
    };
    print_run(out, &held.tables(), text, errors, run, false);
}

// Puts the case's tables, behind the schema that all share, at the start of `text`, and gives how many bytes there are.
fn put_tables(text: &mut Room, case: &Case) -> usize {
    let schema = put_all(text, 0, SCHEMA.as_bytes());
    let shape = put_all(text, schema, case.shape.as_bytes());
    put_all(text, shape, case.own.as_bytes())
}

// A case whose tables are no table file would have no answer. The pool and the words stand at the head of a function of their own: behind the text of
// `answer` the compiler clears them twice.
fn answer_text(out: &impl Print, case: &Case, text: &[u8]) {
    let mut pool = layout::new_pool();
    let mut words = layout::new_words();
    let Ok(contents) = table_file::read(text, &mut pool, &mut words) else {
        return;
    };
    let sizes = contents.sizes;
    let held = Held {
        pool: &pool,
        words: &words,
        sizes,
    };
    // No heap: two buffers of a fixed size.
    let mut data = [0u8; ROOM];
    let mut errors = [0u32; ROOM];
    let room = ROOM.min(case.room);
    let name = case.name;
    let _ = print!(out; "{name} ");
    answer_run(out, &held, case.choices, &mut data[..room], &mut errors);
    say::words(out, b"\n");
}

fn answer(out: &impl Print, case: &Case) {
    let mut text = file::new_text();
    let length = put_tables(&mut text, case);
    answer_text(out, case, file::bytes(&text, length));
}

fn main(rt: HostRuntime) {
    for case in CASES.iter() {
        answer(&rt, case);
    }
}
