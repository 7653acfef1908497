// The counters of a message, an array of arrays by value: read from the words, and merged entry by entry by maximum.
#![tactic(auto)]

ghost use Rattle.std.specs.Prelude.{◌≡◌, ◌+◌, ◌≤◌, length, take, drop};
ghost use Rattle.base.specs.Tabulate.{splice};
ghost use Rattle.tables.specs.Table.{max_row, max_table, table_at, concat};

// A row merged entrywise. By index: tried over both rows zipped, and the proof does not close without an invariant of the iterator.
pub fn merged_row(a: [u16; 16], b: [u16; 16]) -> [u16; 16]
    ensures { result ≡ max_row a b }
{
    let mut r = a;
    for i in 0..16 {
        r[i] = r[i].max(b[i]);
    }
    r
}

// Both tables merged entrywise.
pub fn merged(a: [[u16; 16]; 8], b: [[u16; 16]; 8]) -> [[u16; 16]; 8]
    ensures { result ≡ max_table a b }
{
    let mut t = a;
    for g in 0..8 {
        let x = t[g];
        let y = b[g];
        t[g] = merged_row(x, y);
    }
    t
}

// The 16 words from at on.
pub fn row_at(w: &[u16], at: usize) -> [u16; 16]
    requires { at + 16 ≤ length w.now }
    ensures { result ≡ take 16 (drop at w.now) }
{
    let mut a = [0u16; 16];
    cells::get(w, at, &mut a);
    a
}

// The table whose 128 words start at base.
pub fn table_at(w: &[u16], base: usize) -> [[u16; 16]; 8]
    requires { base + 128 ≤ length w.now }
    ensures { result ≡ table_at 8 16 (drop base w.now) }
{
    let mut t = [[0u16; 16]; 8];
    for g in 0..8 {
        t[g] = row_at(w, base + g * 16);
    }
    t
}

// Writes a table's rows from base on.
pub fn put_table(w: &mut [u16], base: usize, t: [[u16; 16]; 8])
    requires { base + 128 ≤ length w.old }
    ensures { w.new ≡ splice w.old base (concat t) }
{
    for g in 0..8 {
        let r = t[g];
        cells::put(w, base + g * 16, &r);
    }
}

// A table's words in one array.
pub fn flat(t: [[u16; 16]; 8]) -> [u16; 128]
    ensures { result ≡ concat t }
{
    let mut a = [0u16; 128];
    put_table(&mut a, 0, t);
    a
}

// The counters raised to the entrywise maximum with a message's.
pub fn raised(c: [u16; 128], t: [[u16; 16]; 8]) -> [u16; 128]
    ensures { result ≡ concat (max_table (table_at 8 16 c) t) }
{
    let own = table_at(&c, 0);
    let all = merged(own, t);
    flat(all)
}
