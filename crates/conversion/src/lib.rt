// Old sheets to named ones and back (document 02, L3). The page and move records stay as they are: no normal form is written.
#![tactic(auto)]

ghost use Rattle.std.specs.Prelude.{◌+◌, ◌-◌, ◌<◌, ◌≤◌, ◌≡◌, [], ◌∷◌, ◌++◌, length, take, drop};
ghost use Rattle.std.proofs.lemmas.List.Edits.{sets};
ghost use Rattle.lts.specs.Labels.{same_label};
ghost use Rattle.lts.specs.declared.Refusal.TheVariants.{Buffer};
ghost use Rattle.lts.specs.Rule.{◌otherwise◌, checked_reply};
ghost use Rattle.encoding.specs.Records.{header_bytes, of_kind, state_at};
ghost use Rattle.encoding.specs.Labels.{labels_in, label_in, decimal_label, records_of};
ghost use Rattle.encoding.specs.Checked.{Sized, ReadableAs};
ghost use Rattle.conversion.specs.Conversion.{named_in_decimal, fits, conversion, to_named_call, to_plain_call, ToNamedPromise, ToPlainPromise};

// Whether the name of action i + 1 is that number in decimal.
fn name_in_decimal(s: &[u8], h: encoding::Header, i: usize) -> bool
    requires { Sized s.now h × (i < h.actions) }
    ensures { result ≡ same_label (label_in s.now h (i + 1)) (decimal_label (i + 1)) }
{
    let label = encoding::label(s, h, i + 1);
    label.same(encoding::LabelRecord::decimal(i))
}

// Whether each action's name is its number in decimal.
fn named_in_decimal(s: &[u8], h: encoding::Header) -> bool
    requires { ReadableAs s.now h }
    ensures { result ≡ named_in_decimal s.now h }
{
    (0..h.actions).all(|i| name_in_decimal(s, h, i))
}

// Copies the last `size` bytes of s to the end of the buffer. An index loop and not `copy_from_slice`, as in `rows::row_copy`.
fn copy_end(s: &[u8], size: usize, out: &mut [u8])
    requires { (size ≤ length s.now) × (size ≤ length out.old) }
    ensures { out.new ≡ take (length out.old - size) out.old ++ drop (length s.now - size) s.now }
{
    let n = s.len();
    let m = out.len();
    for left in (0..size).rev() {
        out[m - 1 - left] = s[n - 1 - left];
    }
}

// Writes what stands before the records in the wanted kind: the header and the names.
fn put_front(s: &[u8], h: encoding::Header, named: bool, out: &mut [u8])
    requires { Sized s.now h × (state_at (of_kind named h) 0 ≤ length out.old) }
    ensures { out.new ≡ sets out.old 0
        (header_bytes (of_kind named h) ++ records_of (record { named = named; labels = labels_in s.now h })) }
{
    h.of_kind(named).put(out);
    if named {
        labels::put_labels(s, h, out, encoding::Header::BYTES);
    }
}

// Writes a readable sheet in the wanted kind, its records as they are. A buffer of another length than the new sheet's stays as it is.
fn convert(s: &[u8], h: encoding::Header, named: bool, out: &mut [u8]) -> Result<(), lts::Refusal>
    requires { ReadableAs s.now h }
    ensures { conversion named (fits named s.now out.old otherwise Buffer ∷ []) s.now out.old
        ≡ record { reply = checked_reply result; out = out.new } }
{
    if out.len() != h.of_kind(named).length() {
        return Err(lts::Refusal::Buffer);
    }
    put_front(s, h, named, out);
    copy_end(s, s.len() - h.state_at(0), out);
    Ok(())
}

// To named: a plain sheet gets the decimal names of its actions; a named one is copied.
pub fn to_named(s: &[u8], out: &mut [u8]) -> Result<(), lts::Refusal>
    ensures out_value { to_named_call s.now out.old ≡ record { reply = checked_reply result; out = out.new } }
    ensures to_named_promise { ToNamedPromise s.now out.old (checked_reply result) out.new }
{
    let h = reader::read_encoding(s)?;
    convert(s, h, true, out)
}

// To plain: a named sheet in which each action is named by its number in decimal loses the names; a plain one is copied.
pub fn to_plain(s: &[u8], out: &mut [u8]) -> Result<(), lts::Refusal>
    ensures out_value { to_plain_call s.now out.old ≡ record { reply = checked_reply result; out = out.new } }
    ensures to_plain_promise { ToPlainPromise s.now out.old (checked_reply result) out.new }
{
    let h = reader::read_encoding(s)?;
    if !named_in_decimal(s, h) {
        return Err(lts::Refusal::NotDecimal);
    }
    convert(s, h, false, out)
}
