// What ladle does, in a page. The script ./ladle reads the same lines from here where the program is not built yet, so
// they stay one literal.
use verdict::say;

pub(crate) fn print(out: &impl Print) {
    say::words(
        out,
        b"usage: ladle check FILE..\n\
        \x20      ladle depth FILE..\n\
        \x20      ladle run [--raw] [--order LIST] FILE..\n\
        \n\
        check prints 0 where the tables of a table file are lawful, otherwise 1 and what is\n\
        wrong: the line, the table, the row, the rule.\n\
        \n\
        depth counts how many fields named fields, interfaces, possibleTypes or inputFields\n\
        stand one inside the other in the operation; no other list counts. It prints 0 and\n\
        how many, 8 and the place at which there are three, 3 where over 32 sets of\n\
        selections are open, or 1 as check does.\n\
        \n\
        run answers the operation. It prints the data and under it a line for each error: the\n\
        path, what is wrong and its code, the place; or, where there is no data, a code and\n\
        what to change. --order 3,1,2 gives the choices of another order. --raw is for\n\
        scripts, in three lines: code and counts of bytes, words and records; data; words.\n\
        \n\
        ./ladle ends with 0 where every answer is 0, with 1 where one is not, with 2 where a\n\
        file could not be asked about. docs/TABLES.md has more.\n",
    );
}
