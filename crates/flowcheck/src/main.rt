// The program flowcheck (document 01, "Flows on each side"): reads one sheet from standard input, and prints its text.
#![tactic(auto)]

ghost use Rattle.std.specs.Prelude.{◌≡◌};
ghost use Rattle.listing.specs.Text.{flow_text};

// Prints the text of the sheet.
fn print(sheet: &[u8], text: &[u8])
    requires { text.now ≡ flow_text sheet.now }
{
    io::write_all(1, text);
}

// At most one byte more than the longest sheet is read: a longer input has the wrong length already.
fn main() {
    let mut sheet = [0u8; 8199];
    let mut text = [0u8; 266304];
    let read = io::read_full(0, &mut sheet);
    let size = listing::put_flow(&sheet[..read], &mut text);
    print(&sheet[..read], &text[..size]);
}
