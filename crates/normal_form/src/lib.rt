// The writer of the normal form (document 01, "The sheet"; document 02, L2), and normalise.
#![tactic(auto)]

ghost use Rattle.std.specs.Prelude.{◌+◌, ◌<◌, ◌≤◌, ◌≡◌, ◌++◌, length, drop};
ghost use Rattle.std.proofs.lemmas.List.Edits.{sets};
ghost use Rattle.lts.specs.Rule.{checked_reply};
ghost use Rattle.lts.specs.Transitions.{transitions};
ghost use Rattle.encoding.specs.Records.{labels_length, state_at, transition_at, encoding_length};
ghost use Rattle.transitions.specs.Table.{states_of, count_of, entry_at, table_lts, Formed};
ghost use Rattle.normal_form.specs.Normal.{first_index, next_index, normal_header, normal_state, normal_transition};
ghost use Rattle.normal_form.specs.Normal.{states_bytes, transitions_bytes, sheet_bytes};
ghost use Rattle.normal_form.specs.Normalise.{normalise_call, NormalisePromise};
ghost use Rattle.normal_form.specs.Written.{Counts, transitions_from};

// The first index of a state whose transitions stand after the first i and up to the first j.
fn first_index(i: usize, j: usize) -> usize
    requires { i < 65536 }
    ensures { result ≡ first_index i j }
{
    if i == j {
        return 0;
    }
    i + 1
}

// The record of state p.
fn table_state(table: &transitions::Table, p: usize) -> encoding::StateRecord
    requires { Formed table.now × (p < states_of table.now) }
    ensures { result ≡ normal_state (table_lts table.now) p }
{
    let i = transitions::offset(table, p);
    let j = transitions::offset(table, p + 1);
    let mark = transitions::mark(table, p) as u8;
    encoding::StateRecord::new(mark, 0, first_index(i, j))
}

// The next index of transition i, from 0.
fn next_index(table: &transitions::Table, i: usize) -> usize
    requires { Formed table.now × (i < count_of table.now) }
    ensures { let t = table.now in result ≡ next_index (i + 1) (entry_at t i) (transitions_from t (i + 1)) }
{
    if i + 1 < transitions::count(table) {
        if transitions::source(table, i + 1) == transitions::source(table, i) {
            return i + 2;
        }
        return 0;
    }
    0
}

// The record of transition i, from 0.
fn table_transition(table: &transitions::Table, i: usize) -> encoding::TransitionRecord
    requires { Formed table.now × (i < count_of table.now) }
    ensures { let t = table.now in result ≡ normal_transition (i + 1) (entry_at t i) (transitions_from t (i + 1)) }
{
    let action = transitions::action(table, i) as u8;
    let target = transitions::target(table, i);
    encoding::TransitionRecord::new(action, 0, target, next_index(table, i))
}

// The header, from the counts and the kind.
fn table_header(table: &transitions::Table, named: bool) -> encoding::Header
    ensures { Counts table.now result × (result.named ≡ named) }
{
    let n = transitions::states(table);
    let m = transitions::actions(table);
    encoding::Header::new(n, m, transitions::count(table), named)
}

// Writes the label records. An index loop and not `copy_from_slice`, as in `rows::row_copy`.
fn write_labels(out: &mut [u8], labels: &[u8])
    requires { 6 + length labels.now ≤ length out.old }
    ensures { out.new ≡ sets out.old 6 labels.now }
{
    for i in 0..labels.len() {
        out[encoding::Header::BYTES + i] = labels[i];
    }
}

// Writes the state records.
fn write_states(out: &mut [u8], h: encoding::Header, table: &transitions::Table)
    requires { Formed table.now × Counts table.now h × (encoding_length h ≤ length out.old) }
    ensures { out.new ≡ sets out.old (state_at h 0) (states_bytes (table_lts table.now) h.states) }
{
    for p in 0..h.states {
        table_state(table, p).put(out, h.state_at(p));
    }
}

// Writes the transition records.
fn write_transitions(out: &mut [u8], h: encoding::Header, table: &transitions::Table)
    requires { Formed table.now × Counts table.now h × (encoding_length h ≤ length out.old) }
    ensures { out.new ≡ sets out.old (transition_at h 1) (transitions_bytes 1 (transitions (table_lts table.now))) }
{
    for i in 0..h.transitions {
        table_transition(table, i).put(out, h.transition_at(i + 1));
    }
}

// The length of a sheet of the table's system.
pub fn table_length(table: &transitions::Table, named: bool) -> usize
    requires { Formed table.now }
    ensures { result ≡ encoding_length (normal_header named (table_lts table.now)) }
{
    table_header(table, named).length()
}

// Writes the normal sheet of the table's system, with the bytes of its label records, at the start of the buffer.
pub fn write_table(table: &transitions::Table, named: bool, labels: &[u8], out: &mut [u8])
    requires { Formed table.now × (length labels.now ≡ labels_length (normal_header named (table_lts table.now)))
        × (encoding_length (normal_header named (table_lts table.now)) ≤ length out.old) }
    ensures { let bytes = sheet_bytes named labels.now (table_lts table.now) in
        out.new ≡ bytes ++ drop (length bytes) out.old }
{
    let h = table_header(table, named);
    h.put(out);
    write_labels(out, labels);
    write_states(out, h, table);
    write_transitions(out, h, table);
}

// Writes an encoding's normal form, the only one that its kind, labels and Lts have. An encoding that is refused, and a buffer of another
// length than the encoding's own, leave the buffer as it is.
pub fn normalise(s: &[u8], out: &mut [u8]) -> Result<(), lts::Refusal>
    ensures out_value { normalise_call s.now out.old ≡ record { reply = checked_reply result; out = out.new } }
    ensures normalise_promise { NormalisePromise s.now out.old (checked_reply result) out.new }
{
    let h = reader::read_encoding(s)?;
    if out.len() != s.len() {
        return Err(lts::Refusal::Buffer);
    }
    let table = transitions::load(s, h);
    write_table(&table, h.named, encoding::label_bytes(s, h), out);
    Ok(())
}
