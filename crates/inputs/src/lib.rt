// The inputs that calls begin with: a sheet and a start on its states, or two sheets that are joined.
#![tactic(auto)]

ghost use Rattle.std.specs.Prelude.{◌≤◌, ◌≡◌, length, Ok, Err};
ghost use Rattle.lts.specs.Rule.{checked};
ghost use Rattle.encoding.specs.Checked.{Bounds, ReadableAs};
ghost use Rattle.relation.specs.Check.{start_rules};
ghost use Rattle.inputs.specs.Inputs.{read_inputs, read_pair};
ghost use Rattle.inputs.specs.Both.{joint_rules, read_second, read_both, Matched, joint_of};

// The header of a sheet that was read, if the start is one on its states.
fn with_start(h: encoding::Header, start: &[u64]) -> Result<encoding::Header, lts::Refusal>
    requires { h.states ≤ 256 }
    ensures { result ≡ checked (start_rules h.states start.now) Err (Ok h) }
{
    relation::check_preorder(start, h.states)?;
    Ok(h)
}

// Reads the sheet and checks the start.
pub fn read_inputs(s: &[u8], start: &[u64]) -> Result<encoding::Header, lts::Refusal>
    ensures { result ≡ read_inputs s.now start.now }
{
    let h = reader::read_encoding(s)?;
    with_start(h, start)
}

// Reads the sheet, checks the start, and that p and q are states.
pub fn read_pair(
    s: &[u8],
    start: &[u64],
    p: usize,
    q: usize,
) -> Result<encoding::Header, lts::Refusal>
    ensures { result ≡ read_pair s.now start.now p q }
{
    let h = read_inputs(s, start)?;
    let n = h.states;
    if !((p < n) & (q < n)) {
        return Err(lts::Refusal::NoState);
    }
    Ok(h)
}

// Two sheets that were read: their headers, and the number of joined labels.
#[derive(Clone, Copy)]
pub struct Joint {
    pub first: encoding::Header,
    pub second: encoding::Header,
    pub labels: usize,
}

// Checks the joined flow's size, then its number m of labels.
fn check_joined(h: encoding::Header, g: encoding::Header, m: usize) -> Result<Joint, lts::Refusal>
    requires { Bounds h × Bounds g }
    ensures { result ≡ checked (joint_rules h g m) Err (joint_of h g m) }
{
    if !((h.states + g.states <= 256) & (h.transitions + g.transitions <= 1024)) {
        return Err(lts::Refusal::TooLarge);
    }
    if m > 64 {
        return Err(lts::Refusal::TooManyLabels);
    }
    Ok(Joint {
        first: h,
        second: g,
        labels: m,
    })
}

// Reads the second sheet, where h is the header of the first, and checks the joined flow.
fn read_second(
    first: &[u8],
    h: encoding::Header,
    second: &[u8],
    to: &mut transitions::ActionMap,
) -> Result<Joint, lts::Refusal>
    requires { ReadableAs first.now h × (length to.old ≡ 65) }
    ensures value { result ≡ read_second first.now h second.now }
    ensures cases { Matched first.now second.now result to.new }
{
    let g = reader::read_encoding(second)?;
    let m = labels::join_labels(first, h, second, g, to);
    check_joined(h, g, m)
}

// Reads the first sheet, then the second, and checks the joined flow; `to` then has the second's actions by the joined labels.
pub fn read_both(
    first: &[u8],
    second: &[u8],
    to: &mut transitions::ActionMap,
) -> Result<Joint, lts::Refusal>
    requires { length to.old ≡ 65 }
    ensures value { result ≡ read_both first.now second.now }
    ensures cases { Matched first.now second.now result to.new }
{
    let h = reader::read_encoding(first)?;
    read_second(first, h, second, to)
}
