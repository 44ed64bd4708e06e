// Lines of text and decimal numbers, written into a lent buffer.
#![tactic(auto)]

ghost use Rattle.std.specs.Prelude.{◌≡◌, ◌+◌, ◌<◌, ◌≤◌, length};
ghost use Rattle.report.specs.Decimal.{decimal, written};

// Writes text from `at` on, and returns the place after it.
pub fn put_text(out: &mut [u8], at: usize, text: &[u8]) -> usize
    requires { at + length text.now ≤ length out.old }
    ensures value { result ≡ at + length text.now }
    ensures out_after { out.new ≡ written at text.now out.old }
{
    let end = at + text.len();
    out[at..end].copy_from_slice(text);
    end
}

// Writes x in decimal from `at` on, and returns the place after it.
// By hand: `Display` gives a `Result` whose `Err` cannot come, and `itoa` a text of its own to copy: neither is plainer.
pub fn put_decimal(out: &mut [u8], at: usize, x: usize) -> usize
    requires x_bound { x < 100000 }
    requires at_in_bounds { at + 5 ≤ length out.old }
    ensures value { result ≡ at + length (decimal x) }
    ensures out_after { out.new ≡ written at (decimal x) out.old }
{
    if x < 10 {
        out[at] = b'0' + x as u8;
        return at + 1;
    }
    let next = put_decimal(out, at, x / 10);
    out[next] = b'0' + (x % 10) as u8;
    next + 1
}
