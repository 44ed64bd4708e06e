// Encodings of labelled transition systems (document 01, "The sheet"): the records. Crate `reader` reads a whole encoding.
#![tactic(auto)]

ghost use Rattle.std.specs.Prelude.{◌+◌, ◌*◌, ◌-◌, ◌<◌, ◌≤◌, ◌≡◌, true, cond, length};
ghost use Rattle.std.proofs.lemmas.List.Edits.{sets};
ghost use Rattle.lts.specs.Labels.{same_label};
ghost use Rattle.encoding.specs.Records.{number_at, two, header_of, header_bytes, of_kind, state_record_at, state_bytes};
ghost use Rattle.encoding.specs.Records.{transition_record_at, transition_bytes, label_record_at, label_bytes};
ghost use Rattle.encoding.specs.Records.{labels_length, label_at, state_at, transition_at, encoding_length};
ghost use Rattle.encoding.specs.Records.{label_records, label_record, state_record, transition_record};
ghost use Rattle.encoding.specs.Labels.{visible, follows, label_fits, decimal_label, label_in};
ghost use Rattle.encoding.specs.Encoding.{in_range, state_fits, transition_fits};
ghost use Rattle.encoding.specs.Checked.{Bounds, Sized, Recorded, FirstKnown, TransitionKnown};

#[derive(Clone, Copy)]
pub struct Header {
    pub states: usize,
    pub actions: usize,
    pub transitions: usize,
    // Whether the actions have names.
    pub named: bool,
}

// An action's name, and zeros behind it.
#[derive(Clone, Copy)]
pub struct LabelRecord {
    pub bytes: [u8; 16],
}

#[derive(Clone, Copy)]
pub struct StateRecord {
    // The end mark.
    pub mark: u8,
    pub spare: u8,
    pub first: usize,
}

#[derive(Clone, Copy)]
pub struct TransitionRecord {
    pub action: u8,
    pub spare: u8,
    pub target: usize,
    pub next: usize,
}

// The 16-bit number at `at`, low byte first.
fn number_at(s: &[u8], at: usize) -> usize
    requires { at + 1 < length s.now }
    ensures { result ≡ number_at s.now at }
{
    usize::from(u16::from_le_bytes([s[at], s[at + 1]]))
}

// Whether a byte may stand in a name.
fn visible(x: u8) -> bool
    ensures { result ≡ visible x }
{
    (33 <= x) & (x <= 126)
}

// Whether y may stand behind x in a label.
fn follows(x: u8, y: u8) -> bool
    ensures { result ≡ follows x y }
{
    (y == 0) | (visible(x) & visible(y))
}

// Writes a 16-bit number, low byte first.
fn put_two(out: &mut [u8], at: usize, x: usize)
    requires { at + 1 < length out.old }
    ensures { out.new ≡ sets out.old at (two x) }
{
    out[at] = (x % 256) as u8;
    out[at + 1] = (x / 256 % 256) as u8;
}

impl Header {
    pub const BYTES: usize = 6;

    pub fn new(states: usize, actions: usize, transitions: usize, named: bool) -> Header
        ensures { result ≡ record { states = states; actions = actions; transitions = transitions; named = named } }
    {
        Header {
            states: states,
            actions: actions,
            transitions: transitions,
            named: named,
        }
    }

    pub fn read(s: &[u8]) -> Header
        requires { 6 ≤ length s.now }
        ensures { result ≡ header_of s.now }
    {
        let first = number_at(s, 0);
        Header::new(
            first % 32768,
            number_at(s, 2),
            number_at(s, 4),
            first >= 32768,
        )
    }

    // The same counts in the wanted kind.
    pub fn of_kind(self, named: bool) -> Header
        ensures { result ≡ of_kind named self }
    {
        Header::new(self.states, self.actions, self.transitions, named)
    }

    // The first number.
    fn first(self) -> usize
        requires { self.states < 32768 }
        ensures { result ≡ self.states + cond self.named 32768 0 }
    {
        if self.named {
            return self.states + 32768;
        }
        self.states
    }

    pub fn put(self, out: &mut [u8])
        requires { (6 ≤ length out.old) × (self.states < 32768) }
        ensures { out.new ≡ sets out.old 0 (header_bytes self) }
    {
        put_two(out, 0, self.first());
        put_two(out, 2, self.actions);
        put_two(out, 4, self.transitions);
    }

    // Whether each count is in its range.
    pub fn in_range(self) -> bool
        ensures { result ≡ in_range self }
    {
        (1 <= self.states)
            & (self.states <= 256)
            & (self.actions <= 64)
            & (self.transitions <= 1024)
    }

    // The length of all label records. (No branch: the sum of a record's place is then as short as without names.)
    pub fn labels_length(self) -> usize
        requires { Bounds self }
        ensures { result ≡ labels_length self }
    {
        LabelRecord::BYTES * self.actions * (self.named as usize)
    }

    // Where the label record of action a, from 1, starts.
    pub fn label_at(self, a: usize) -> usize
        requires { (1 ≤ a) × (a ≤ 65) }
        ensures { result ≡ label_at self a }
    {
        Header::BYTES + LabelRecord::BYTES * (a - 1)
    }

    // Where the record of state p starts.
    pub fn state_at(self, p: usize) -> usize
        requires { (Bounds self) × (p ≤ self.states) }
        ensures { result ≡ state_at self p }
    {
        Header::BYTES + self.labels_length() + StateRecord::BYTES * p
    }

    // Where transition record j, from 1, starts.
    pub fn transition_at(self, j: usize) -> usize
        requires { (Bounds self) × (1 ≤ j) × (j ≤ self.transitions + 1) }
        ensures { result ≡ transition_at self j }
    {
        let base = self.state_at(self.states);
        base + TransitionRecord::BYTES * (j - 1)
    }

    // The length of the whole encoding.
    pub fn length(self) -> usize
        requires { Bounds self }
        ensures { result ≡ encoding_length self }
    {
        self.transition_at(self.transitions + 1)
    }
}

impl LabelRecord {
    pub const BYTES: usize = 16;

    pub fn new(bytes: [u8; 16]) -> LabelRecord
        ensures { result ≡ record { bytes = bytes } }
    {
        LabelRecord { bytes: bytes }
    }

    // The name of action i + 1 in a plain sheet.
    pub fn decimal(i: usize) -> LabelRecord
        requires { i < 64 }
        ensures { result.bytes ≡ decimal_label (i + 1) }
    {
        let mut bytes = [0u8; 16];
        report::put_decimal(&mut bytes, 0, i + 1);
        LabelRecord::new(bytes)
    }

    fn read(s: &[u8], at: usize) -> LabelRecord
        requires { at + 15 < length s.now }
        ensures { result ≡ label_record_at s.now at }
    {
        let mut bytes = [0u8; 16];
        bytes.copy_from_slice(&s[at..at + 16]);
        LabelRecord::new(bytes)
    }

    pub fn put(self, out: &mut [u8], at: usize)
        requires { at + 15 < length out.old }
        ensures { out.new ≡ sets out.old at (label_bytes self) }
    {
        out[at..at + 16].copy_from_slice(&self.bytes);
    }

    // Whether both have the same bytes.
    pub fn same(self, other: LabelRecord) -> bool
        ensures { result ≡ same_label self.bytes other.bytes }
    {
        self.bytes == other.bytes
    }

    // Whether it is a name of 1 to 16 bytes, then zeros.
    pub fn fits(self) -> bool
        ensures { result ≡ label_fits self.bytes }
    {
        visible(self.bytes[0]) && (0..15).all(|d| follows(self.bytes[d], self.bytes[d + 1]))
    }
}

impl StateRecord {
    pub const BYTES: usize = 4;

    pub fn new(mark: u8, spare: u8, first: usize) -> StateRecord
        ensures { result ≡ record { mark = mark; spare = spare; first = first } }
    {
        StateRecord {
            mark: mark,
            spare: spare,
            first: first,
        }
    }

    fn read(s: &[u8], at: usize) -> StateRecord
        requires { at + 3 < length s.now }
        ensures { result ≡ state_record_at s.now at }
    {
        StateRecord::new(s[at], s[at + 1], number_at(s, at + 2))
    }

    pub fn put(self, out: &mut [u8], at: usize)
        requires { at + 3 < length out.old }
        ensures { out.new ≡ sets out.old at (state_bytes self) }
    {
        out[at] = self.mark;
        out[at + 1] = self.spare;
        put_two(out, at + 2, self.first);
    }

    pub fn fits(self, h: Header) -> bool
        ensures { result ≡ state_fits h self }
    {
        (self.mark <= 1) & (self.spare == 0) & (self.first <= h.transitions)
    }
}

impl TransitionRecord {
    pub const BYTES: usize = 6;

    pub fn new(action: u8, spare: u8, target: usize, next: usize) -> TransitionRecord
        ensures { result ≡ record { action = action; spare = spare; target = target; next = next } }
    {
        TransitionRecord {
            action: action,
            spare: spare,
            target: target,
            next: next,
        }
    }

    fn read(s: &[u8], at: usize) -> TransitionRecord
        requires { at + 5 < length s.now }
        ensures { result ≡ transition_record_at s.now at }
    {
        TransitionRecord::new(s[at], s[at + 1], number_at(s, at + 2), number_at(s, at + 4))
    }

    pub fn put(self, out: &mut [u8], at: usize)
        requires { at + 5 < length out.old }
        ensures { out.new ≡ sets out.old at (transition_bytes self) }
    {
        out[at] = self.action;
        out[at + 1] = self.spare;
        put_two(out, at + 2, self.target);
        put_two(out, at + 4, self.next);
    }

    pub fn fits(self, h: Header) -> bool
        ensures { result ≡ transition_fits h self }
    {
        let a = self.action as usize;
        (1 <= a)
            & (a <= h.actions)
            & (self.spare == 0)
            & (self.target < h.states)
            & (self.next <= h.transitions)
    }
}

// The label record of action a, from 1.
pub fn label_record(s: &[u8], h: Header, a: usize) -> LabelRecord
    requires { (Sized s.now h) × (h.named ≡ true) × (1 ≤ a) × (a ≤ h.actions) }
    ensures { result ≡ label_record s.now h a }
{
    LabelRecord::read(s, h.label_at(a))
}

// The bytes of all label records.
pub fn label_bytes(s: &[u8], h: Header) -> &[u8]
    requires { Sized s.now h }
    ensures { result.now ≡ label_records s.now h }
{
    let end = h.state_at(0);
    &s[Header::BYTES..end]
}

// The label of action a, from 1: its record, or in a plain sheet its decimal digits.
pub fn label(s: &[u8], h: Header, a: usize) -> LabelRecord
    requires { (Sized s.now h) × (1 ≤ a) × (a ≤ h.actions) }
    ensures { result.bytes ≡ label_in s.now h a }
{
    if h.named {
        return label_record(s, h, a);
    }
    LabelRecord::decimal(a - 1)
}

// The record of state p.
pub fn state_record(s: &[u8], h: Header, p: usize) -> StateRecord
    requires { (Sized s.now h) × (p < h.states) }
    ensures { result ≡ state_record s.now h p }
{
    StateRecord::read(s, h.state_at(p))
}

// Transition record j, from 1.
pub fn transition_record(s: &[u8], h: Header, j: usize) -> TransitionRecord
    requires { (Sized s.now h) × (1 ≤ j) × (j ≤ h.transitions) }
    ensures { result ≡ transition_record s.now h j }
{
    TransitionRecord::read(s, h.transition_at(j))
}

// State p's first index, after rule 3.
pub fn first_of(s: &[u8], h: Header, p: usize) -> usize
    requires { (Recorded s.now h) × (p < h.states) }
    ensures { FirstKnown s.now h p result }
{
    state_record(s, h, p).first
}

// Transition record j, after rule 4.
pub fn known_transition(s: &[u8], h: Header, j: usize) -> TransitionRecord
    requires { (Recorded s.now h) × (1 ≤ j) × (j ≤ h.transitions) }
    ensures { TransitionKnown s.now h j result }
{
    transition_record(s, h, j)
}
