// What is held so far while a text is read.
ghost use Rattle.std.specs.Prelude.{◌≡◌, ◌≤◌, ◌<◌, ◌+◌, length, get_or, IfOk};
ghost use Rattle.table_file.specs.Numbers.{number_of, room_of, HasWords};
ghost use Rattle.table_file.specs.Sizes.{Within};

use crate::fault::Fault;
use crate::held::Held;
use crate::layout::{POOL_BYTES, Pool, REGION, Sizes, TABLES, Table, Words};

// How much there is of each table, which is never more than there is room for.
#[derive(Clone, Copy)]
pub(crate) struct Filled {
    pub sizes: Sizes,
    ghost within: { Within sizes },
}

impl Filled {
    fn nothing() -> Filled {
        Filled { sizes: [0; TABLES] }
    }

    fn size(&self, table: Table) -> usize
        ensures is { result ≡ get_or self.now.sizes (number_of table) 0 }
        ensures within { result ≤ room_of table }
    {
        self.sizes[table.number()]
    }

    fn set_size(&mut self, table: Table, size: usize)
        requires { size ≤ room_of table }
        ensures { get_or self.new.sizes (number_of table) 0 ≡ size }
    {
        self.sizes[table.number()] = size;
    }
}

// How much of a table there is room for.
fn room(table: Table) -> usize
    ensures { result ≡ room_of table }
{
    match table {
        Table::Pool => POOL_BYTES,
        _ => REGION,
    }
}

// What is wrong with what goes beyond that.
fn full(table: Table) -> Fault {
    match table {
        Table::Pool => Fault::PoolFull,
        _ => Fault::TableFull,
    }
}

// Makes the first `count` items stand again behind themselves, until there are `total`.
fn repeat_items<T: Copy>(items: &mut [T], count: usize, total: usize)
    requires { total ≤ length items.old }
{
    for k in count..total {
        items[k] = items[k - count];
    }
}

// The pool and the words that a text is read into, and how much of them is filled.
#[derive(Drop)]
pub(crate) struct Store<'a> {
    pub pool: &'a mut Pool,
    pub words: &'a mut Words,
    pub filled: Filled,
}

impl<'a> Store<'a> {
    pub(crate) fn new(pool: &'a mut Pool, words: &'a mut Words) -> Store<'a> {
        Store {
            pool,
            words,
            filled: Filled::nothing(),
        }
    }

    pub(crate) fn held(&self) -> Held<'_>
        ensures { result.sizes ≡ self.now.filled.sizes }
    {
        Held {
            pool: self.pool,
            words: self.words,
            sizes: self.filled.sizes,
        }
    }

    pub(crate) fn size(&self, table: Table) -> usize
        ensures is { result ≡ get_or self.now.filled.sizes (number_of table) 0 }
        ensures within { result ≤ room_of table }
    {
        self.filled.size(table)
    }

    // Puts a byte at the pool's end, where there is room. Beside `append`: one writes at an end that is known, the other in a region of the words, and
    // one function for both would ask which at each step.
    pub(crate) fn append_byte(&mut self, byte: u8) -> Result<(), Fault>
        ensures { get_or self.old.filled.sizes 0 0 ≤ get_or self.new.filled.sizes 0 0 }
    {
        let size = self.filled.size(Table::Pool);
        if size >= POOL_BYTES {
            return Err(Fault::PoolFull);
        }
        self.pool[size] = byte;
        self.filled.set_size(Table::Pool, size + 1);
        Ok(())
    }

    // Puts a word at a table's end, where there is room. The pool has no words, and none is put there.
    pub(crate) fn append(&mut self, table: Table, word: u32) -> Result<(), Fault>
        requires { HasWords table }
    {
        let size = self.filled.size(table);
        if size >= REGION {
            return Err(Fault::TableFull);
        }
        self.words[table.number() * REGION + size] = word;
        self.filled.set_size(table, size + 1);
        Ok(())
    }

    // Makes what a table has from `start` on stand so many times.
    pub(crate) fn repeat(&mut self, table: Table, start: usize, times: u32) -> Result<(), Fault>
        requires { start ≤ room_of table }
    {
        let count = self.filled.size(table).saturating_sub(start);
        let total = count * times as usize;
        if total > room(table) - start {
            return Err(full(table));
        }
        match table {
            Table::Pool => {
                let pool = &mut *self.pool;
                repeat_items(&mut pool[start..], count, total);
            }
            _ => {
                let words = &mut *self.words;
                repeat_items(&mut words[table.number() * REGION + start..], count, total);
            }
        }
        self.filled.set_size(table, start + total);
        Ok(())
    }
}
