// Bytes as text: bytes in hex and back, numbers in decimal. It knows no tag.
#![tactic(auto)]

ghost use Rattle.std.specs.Prelude.{◌≡◌, ◌≤◌, ◌<◌, length};
ghost use Rattle.put.specs.Put.{Put};
ghost use Rattle.text.specs.Text.{hex_digit, hex_of, hex_or, is_figure, is_letter, is_digit, all_digits, value_of, bytes_in, decimal_of};

// A digit of a number in decimal.
pub fn is_figure(d: u8) -> bool
    ensures { result ≡ is_figure d }
{
    matches!(d, b'0'..=b'9')
}

fn is_letter(d: u8) -> bool
    ensures { result ≡ is_letter d }
{
    matches!(d, b'A'..=b'F')
}

fn is_digit(d: u8) -> bool
    ensures { result ≡ is_digit d }
{
    is_figure(d) || is_letter(d)
}

// Every byte is a digit in upper-case hex.
pub fn all_digits(s: &[u8]) -> bool
    ensures { result ≡ all_digits s.now }
{
    s.iter().all(|d| is_digit(*d))
}

// The value of a digit, 0 for a byte that is none. The library turns a `char` into a digit and back, and no byte.
#[tactic(auto, unfolding(crate::specs::Text::value_of))]
fn value(d: u8) -> u8
    ensures { result ≡ value_of d }
{
    match d {
        b'0'..=b'9' => d - b'0',
        b'A'..=b'F' => d - b'A' + 10,
        _ => 0,
    }
}

// The bytes that pairs of digits stand for go to the start of out.
#[tactic(auto, using(crate::proofs::Texts::value_most, crate::proofs::Texts::bytes_count), unfolding(crate::specs::Text::bytes_in))]
pub fn put_bytes(digits: &[u8], out: &mut [u8]) -> usize
    requires { length (bytes_in digits.now) ≤ length out.old }
    ensures { Put (bytes_in digits.now) out.old out.new result }
{
    let (pairs, _) = digits.as_chunks::<2>();
    for (i, pair) in pairs.iter().enumerate() {
        out[i] = 16 * value(pair[0]) + value(pair[1]);
    }
    pairs.len()
}

fn hex_digit(n: u8) -> u8
    requires { n < 16 }
    ensures { result ≡ hex_digit n }
{
    if n < 10 { b'0' + n } else { b'A' + (n - 10) }
}

// The bytes in hex go to the start of out.
#[tactic(auto, using(crate::proofs::Texts::hex_length), unfolding(crate::specs::Text::hex_of))]
pub fn put_hex(bytes: &[u8], out: &mut [u8]) -> usize
    requires { length (hex_of bytes.now) ≤ length out.old }
    ensures { Put (hex_of bytes.now) out.old out.new result }
{
    for (i, byte) in bytes.iter().enumerate() {
        out[2 * i] = hex_digit(*byte / 16);
        out[2 * i + 1] = hex_digit(*byte % 16);
    }
    2 * bytes.len()
}

// The bytes in hex, or a mark where there are none, go to the start of out.
#[tactic(auto, unfolding(crate::specs::Text::hex_or))]
pub fn put_hex_or(mark: u8, bytes: &[u8], out: &mut [u8]) -> usize
    requires { length (hex_or mark bytes.now) ≤ length out.old }
    ensures { Put (hex_or mark bytes.now) out.old out.new result }
{
    if bytes.is_empty() {
        out[0] = mark;
        return 1;
    }
    put_hex(bytes, out)
}

// The number in decimal goes to the start of out.
pub fn put_decimal(n: u64, out: &mut [u8]) -> usize
    requires { length (decimal_of n) ≤ length out.old }
    ensures { Put (decimal_of n) out.old out.new result }
{
    if n < 10 {
        out[0] = b'0' + n as u8;
        return 1;
    }
    let at = put_decimal(n / 10, out);
    out[at] = b'0' + (n % 10) as u8;
    at + 1
}
