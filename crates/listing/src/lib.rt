// The whole text that the program flowcheck prints for a sheet (document 01, "Flows on each side"), written into a lent buffer.
#![tactic(auto)]

ghost use Rattle.std.specs.Prelude.{◌≡◌, [], ◌++◌, ◌*◌, ◌≤◌, length, drop};
ghost use Rattle.lts.specs.System.{termination_preorder};
ghost use Rattle.lts.specs.Refusal.{refusal_number};
ghost use Rattle.encoding.specs.Checked.{ReadableAs};
ghost use Rattle.encoding.specs.Denotation.{lts_of};
ghost use Rattle.rows.specs.Rows.{row_words};
ghost use Rattle.simulation.specs.Calls.{write_start_call};
ghost use Rattle.coarsest.specs.Call.{coarsest_reply, coarsest_call};
ghost use Rattle.report.specs.Decimal.{written};
ghost use Rattle.lines.specs.Lines.{refused_line};
ghost use Rattle.listing.specs.Call.{Fitting, Small, result_text};
ghost use Rattle.listing.specs.Text.{system_text, flow_text, Part};

// Room for the longest text: a first line of at most 64 bytes, and 256 lines of at most 1,040.
pub type Text = [u8; 266304];

// Coarsest with the termination preorder (the end start) and an empty schedule.
fn refine(
    s: &[u8],
    start: &mut [u64],
    grid: &mut [u64],
    representatives: &mut [u16],
) -> Result<coarsest::Counts, lts::Refusal>
    ensures { coarsest_call s.now (write_start_call termination_preorder s.now start.old).grid []
        grid.old representatives.old
        ≡ record { reply = coarsest_reply result; grid = grid.new; representatives = representatives.new } }
{
    let schedule = [0u16; 0];
    let _ = simulation::termination_preorder(s, start);
    coarsest::coarsest(s, start, &schedule, grid, representatives)
}

// Writes the line of a refusal.
fn put_refusal(out: &mut [u8], r: lts::Refusal) -> usize
    requires { 266304 ≤ length out.old }
    ensures value { result ≡ length (refused_line (refusal_number r)) }
    ensures out_after { out.new ≡ written 0 (refused_line (refusal_number r)) out.old }
{
    lines::put_refused(out, r.number() as usize)
}

// Writes the text of a result.
fn put_result(
    out: &mut [u8],
    n: usize,
    c: coarsest::Counts,
    grid: &[u64],
    representatives: &[u16],
) -> usize
    requires { (n ≤ 256) × Small c × (length grid.now ≡ n * row_words n) × (length representatives.now ≡ n) × (266304 ≤ length out.old) }
    ensures value { result ≡ length (result_text n c grid.now representatives.now) }
    ensures out_after { out.new ≡ written 0 (result_text n c grid.now representatives.now) out.old }
{
    let at = lines::put_head(out, n, c.steps, c.pairs, c.blocks);
    lines::put_states(out, at, grid, representatives, n)
}

// The text of a readable encoding, worked out in buffers of the right lengths: coarsest refuses nothing.
fn put_in(
    s: &[u8],
    h: encoding::Header,
    out: &mut [u8],
    start: &mut [u64],
    grid: &mut [u64],
    representatives: &mut [u16],
) -> usize
    requires { Fitting s.now h start.old grid.old representatives.old × (266304 ≤ length out.old) }
    ensures value { result ≡ length (system_text (lts_of s.now)) }
    ensures out_after { out.new ≡ written 0 (system_text (lts_of s.now)) out.old }
{
    let n = h.states;
    match refine(s, start, grid, representatives) {
        Err(r) => put_refusal(out, r),
        Ok(c) => put_result(out, n, c, grid, representatives),
    }
}

// The text of a readable encoding.
fn put_readable(s: &[u8], h: encoding::Header, out: &mut [u8]) -> usize
    requires { ReadableAs s.now h × (266304 ≤ length out.old) }
    ensures value { result ≡ length (system_text (lts_of s.now)) }
    ensures out_after { out.new ≡ written 0 (system_text (lts_of s.now)) out.old }
{
    let n = h.states;
    let size = relation::matrix_words(n);
    let mut start = [0u64; 1024];
    let mut grid = [0u64; 1024];
    let mut representatives = [0u16; 256];
    put_in(
        s,
        h,
        out,
        &mut start[..size],
        &mut grid[..size],
        &mut representatives[..n],
    )
}

// Writes the text of a sheet, and returns its length; the bytes after it stay as they are. (The last line follows from the two before it,
// and is what a caller asks of `&out[..size]`.)
pub fn put_flow(s: &[u8], out: &mut Text) -> usize
    ensures value { result ≡ length (flow_text s.now) }
    ensures out_after { out.new ≡ flow_text s.now ++ drop result out.old }
    ensures part { Part result out.new (flow_text s.now) }
{
    match reader::read_encoding(s) {
        Err(r) => put_refusal(out, r),
        Ok(h) => put_readable(s, h, out),
    }
}
