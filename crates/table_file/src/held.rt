// What a table file holds, lent together.
ghost use Rattle.std.specs.Prelude.{◌≡◌, ◌≤◌, ◌<◌};
ghost use Rattle.table_file.specs.Held.{pool_of, table_of, root_of, AreHeld};
ghost use Rattle.table_file.specs.Numbers.{number_of};

use crate::layout::{REGION, Sizes, Table};
use rows::tables::Tables;

// The words of the tables, each table in its region, and how many there are of each.
#[derive(Clone, Copy)]
pub struct Held<'a> {
    pub pool: &'a [u8],
    pub words: &'a [u32],
    // The number of words of each table, and of the pool's bytes at 0.
    pub sizes: Sizes,
}

impl<'a> Held<'a> {
    // The words of a table; those that are there, where they end before them.
    pub fn table(&self, table: Table) -> &'a [u32]
        ensures { result.now ≡ table_of self.now.words.now self.now.sizes (number_of table) }
    {
        let number = table.number();
        let rest = self.words.get(number * REGION..).unwrap_or(&[]);
        rest.get(..self.sizes[number]).unwrap_or(rest)
    }

    // The pool's bytes that are filled; all of them, where it ends before them.
    pub fn pool_bytes(&self) -> &'a [u8]
        ensures { result.now ≡ pool_of self.now.pool.now self.now.sizes }
    {
        let size = self.sizes[Table::Pool.number()];
        self.pool.get(..size).unwrap_or(self.pool)
    }

    // The number of the root type: 0 unless it is given.
    pub fn root(&self) -> u32
        ensures { result ≡ root_of self.now.words.now self.now.sizes }
    {
        self.table(Table::Root).first().copied().unwrap_or(0)
    }

    // All of it, as the entries take it.
    pub fn tables(&self) -> Tables<'a>
        ensures { AreHeld self.now.pool.now self.now.words.now self.now.sizes result }
    {
        Tables {
            pool: self.pool_bytes(),
            names: self.table(Table::Names),
            type_refs: self.table(Table::TypeRefs),
            types: self.table(Table::Types),
            members: self.table(Table::Members),
            fields: self.table(Table::Fields),
            arguments: self.table(Table::Arguments),
            sets: self.table(Table::Sets),
            selections: self.table(Table::Selections),
            given: self.table(Table::Given),
            fragments: self.table(Table::Fragments),
            nodes: self.table(Table::Nodes),
            literals: self.table(Table::Literals),
            variables: self.table(Table::Variables),
            answers: self.table(Table::Answers),
            root: self.root(),
        }
    }
}
