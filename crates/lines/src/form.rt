// What a line is, and the frame of a request.
ghost use Rattle.std.specs.Prelude.{◌≡◌, ◌+◌, ◌≤◌, length};
ghost use Rattle.put.specs.Put.{Put};
ghost use Rattle.tag.specs.Step.{sealed};
ghost use Rattle.text.specs.Text.{bytes_in};
ghost use Rattle.lines.specs.Form.{is_request, form_of};

use record::Kind;

#[tactic(auto, unfolding(crate::specs::Form::is_request))]
fn is_request(line: &[u8]) -> bool
    ensures { result ≡ is_request line.now }
{
    (2..=128).contains(&line.len()) && line.len() % 2 == 0 && text::all_digits(line)
}

// "ON, OFF, EOF, or a request", each of which is an event of a kind; none for "a line of no such form"
#[tactic(auto, unfolding(crate::specs::Form::form_of))]
pub fn form_of(line: &[u8]) -> Option<Kind>
    ensures { result ≡ form_of line.now }
{
    match line {
        b"ON" => Some(Kind::FieldOn),
        b"OFF" => Some(Kind::FieldOff),
        b"EOF" => Some(Kind::EndOfFrame),
        _ => is_request(line).then_some(Kind::Request),
    }
}

// The bytes of a request in hex, and their CRC, go to the start of frame.
pub fn put_frame(line: &[u8], frame: &mut [u8]) -> usize
    requires { length (bytes_in line.now) + 2 ≤ length frame.old }
    ensures { Put (sealed (bytes_in line.now)) frame.old frame.new result }
{
    let n = text::put_bytes(line, frame);
    let crc = crc::crc_bytes(&frame[..n]);
    frame[n] = crc[0];
    frame[n + 1] = crc[1];
    n + 2
}
