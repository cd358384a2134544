// An output line.
ghost use Rattle.std.specs.Prelude.{◌≡◌, ◌≤◌, length};
ghost use Rattle.put.specs.Put.{Put};
ghost use Rattle.lines.specs.Output.{text_of};

// An output line: "line number from 1 in decimal, a space, then the whole answer in hex", or a mark, and a newline. Out is the caller's, and the length
// is returned.
#[tactic(auto, unfolding(crate::specs::Output::text_of))]
pub fn put_line(number: u64, mark: u8, answer: &[u8], out: &mut [u8]) -> usize
    requires { length (text_of number mark answer.now) ≤ length out.old }
    ensures { Put (text_of number mark answer.now) out.old out.new result }
{
    let mut at = text::put_decimal(number, out);
    out[at] = b' ';
    at += 1;
    at += text::put_hex_or(mark, answer, &mut out[at..]);
    out[at] = b'\n';
    at + 1
}
