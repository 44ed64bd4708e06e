// The starts that calls write, of a transition table: the end start (document 01, "Grids") and the ready start (document 02, L6).
#![tactic(auto)]

ghost use Rattle.std.specs.Prelude.{◌≡◌, ◌*◌, ◌<◌, ◌≤◌, length, get_or};
ghost use Rattle.lts.specs.System.{termination_preorder};
ghost use Rattle.lts.specs.Ready.{ready_preorder};
ghost use Rattle.rows.specs.Rows.{row_of, row_words, states_below};
ghost use Rattle.transitions.specs.Table.{states_of, table_lts, Formed};
ghost use Rattle.relation.specs.Matrix.{matrix_of};
ghost use Rattle.starts.specs.Start.{action_bits, same_set, ready_row, written_start};

// The actions of each state's transitions: bit a - 1 of word p for action a.
fn action_words(table: &transitions::Table) -> [u64; 256]
    requires { Formed table.now }
    ensures { result ≡ row_of 256 (action_bits (table_lts table.now)) }
{
    let mut words = [0u64; 256];
    for i in 0..transitions::count(table) {
        let p = transitions::source(table, i);
        rows::insert(&mut words, 64 * p + (transitions::action(table, i) - 1));
    }
    words
}

// The states below n whose word holds the same set as state p's: equal words do, and no others.
fn alike(words: &[u64; 256], n: usize, p: usize) -> [u64; 4]
    requires { (n ≤ 256) × (p < n) }
    ensures { let of = words.now in result ≡ row_of 4 (states_below n (λ q. same_set (get_or of p 0) (get_or of q 0))) }
{
    let own = words[p];
    let mut set = [0u64; 4];
    for (q, word) in words[..n].iter().enumerate() {
        if *word == own {
            rows::insert(&mut set, q);
        }
    }
    set
}

// Row p of the ready start: the states with the same actions, and only the terminating ones of them where p terminates.
fn ready_row(terminating: &[u64; 4], words: &[u64; 256], n: usize, p: usize) -> [u64; 4]
    requires { (n ≤ 256) × (p < n) }
    ensures { result ≡ row_of 4 (states_below n (ready_row terminating.now words.now p)) }
{
    let mut row = alike(words, n, p);
    if !rows::contains(terminating, p) {
        return row;
    }
    rows::row_intersect(&mut row, terminating, 4);
    row
}

// Writes the ready start of a table.
fn write_ready(table: &transitions::Table, grid: &mut [u64])
    requires { Formed table.now × (length grid.old ≡ states_of table.now * row_words (states_of table.now)) }
    ensures { grid.new ≡ matrix_of (states_of table.now) (ready_preorder (table_lts table.now)) }
{
    let n = transitions::states(table);
    let w = rows::row_words(n);
    let terminating = transitions::terminating(table);
    let words = action_words(table);
    for p in 0..n {
        let at = p * w;
        rows::row_copy(&mut grid[at..], &ready_row(&terminating, &words, n, p), w);
    }
}

// Writes the end start of a table.
fn write_end(table: &transitions::Table, grid: &mut [u64])
    requires { Formed table.now × (length grid.old ≡ states_of table.now * row_words (states_of table.now)) }
    ensures { grid.new ≡ matrix_of (states_of table.now) (termination_preorder (table_lts table.now)) }
{
    let n = transitions::states(table);
    let terminating = transitions::terminating(table);
    relation::write_termination(&terminating, n, grid);
}

// Writes the ready start of a table, or its end start.
pub fn write_start(table: &transitions::Table, ready: bool, grid: &mut [u64])
    requires { Formed table.now × (length grid.old ≡ states_of table.now * row_words (states_of table.now)) }
    ensures { grid.new ≡ matrix_of (states_of table.now) (written_start ready (table_lts table.now)) }
{
    if ready {
        write_ready(table, grid);
    } else {
        write_end(table, grid);
    }
}
