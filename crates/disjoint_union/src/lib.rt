// Join: the joined flow of two sheets, which compare runs on, as a normal sheet.
#![tactic(auto)]

ghost use Rattle.std.specs.Prelude.{◌≡◌, ◌≤◌, length, take};
ghost use Rattle.encoding.specs.Labels.{labels_in, records_of};
ghost use Rattle.labels.specs.Maps.{Matches};
ghost use Rattle.inputs.specs.Both.{Joinable};
ghost use Rattle.disjoint_union.specs.Join.{join_reply, joined_labelling, join_call, JoinPromise};

// Writes the label records of the joined flow at the start of `labels`; their length. A plain sheet has none.
fn put_records(
    first: &[u8],
    h: encoding::Header,
    second: &[u8],
    g: encoding::Header,
    to: &transitions::ActionMap,
    m: usize,
    labels: &mut [u8],
) -> usize
    requires { Joinable first.now h second.now g m × Matches (labels_in first.now h) (labels_in second.now g) g.actions to.now
        × (length labels.old ≡ 1024) }
    ensures { (result ≤ 1024) × (length labels.new ≡ 1024)
        × (take result labels.new ≡ records_of (joined_labelling first.now second.now)) }
{
    if !(h.named | g.named) {
        return 0;
    }
    labels::put_joined(first, h, second, g, to, labels);
    encoding::LabelRecord::BYTES * m
}

// Join: writes the normal form of the two sheets' joined flow at the start of the buffer: plain where both are, otherwise named. A buffer that is
// shorter is refused, and what is past the written end stays.
pub fn join(first: &[u8], second: &[u8], out: &mut [u8]) -> Result<usize, lts::Refusal>
    ensures out_value { join_call first.now second.now out.old ≡ record { reply = join_reply result; out = out.new } }
    ensures join_promise { JoinPromise first.now second.now out.old (join_reply result) out.new }
{
    let mut to = [0u16; 65];
    let both = inputs::read_both(first, second, &mut to)?;
    let h = both.first;
    let g = both.second;
    let m = both.labels;
    let mut table = transitions::empty();
    transitions::load_both(first, h, second, g, &to, m, &mut table);
    let named = h.named | g.named;
    let length = normal_form::table_length(&table, named);
    if out.len() < length {
        return Err(lts::Refusal::Buffer);
    }
    let mut labels = [0u8; 1024];
    let size = put_records(first, h, second, g, &to, m, &mut labels);
    normal_form::write_table(&table, named, &labels[..size], out);
    Ok(length)
}
