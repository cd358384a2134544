// The CRC of ISO/IEC 15693, as document 01 says it: reflected polynomial 8408h, start FFFFh, complemented, low byte first. It is worked half a
// byte at a time from sixteen numbers. Of a loop over eight bits a compiler makes a table of 256 numbers, which takes 512 bytes.
#![tactic(auto)]

ghost use Rattle.std.specs.Prelude.{◌≡◌};
ghost use Rattle.crc.specs.Crc.{crc_of, crc_bytes};
ghost use Rattle.crc.specs.Halves.{sixteen_numbers, half_by, byte_by};

// The sixteen numbers, one for each half byte. Their rule: number k is what four bits leave of a register that holds k, `crc_bits 4 k`. It is
// shifted right four times, and 8408h goes into it after each 1 that falls out.
const SIXTEEN_NUMBERS: [u16; 16] = [
    0x0000, 0x1081, 0x2102, 0x3183, 0x4204, 0x5285, 0x6306, 0x7387, 0x8408, 0x9489, 0xA50A, 0xB58B,
    0xC60C, 0xD68D, 0xE70E, 0xF78F,
];

// All of them; the promise is their rule.
#[tactic(auto, unfolding(crate::specs::Halves::sixteen_numbers, crate::specs::Halves::up_from, crate::specs::Crc::crc_bits, crate::specs::Crc::crc_bit))]
fn sixteen_numbers() -> [u16; 16]
    ensures { result ≡ sixteen_numbers }
{
    SIXTEEN_NUMBERS
}

// Half a byte: four bits are shifted out, and their number goes into the rest.
#[tactic(auto, unfolding(crate::specs::Halves::half_by))]
fn half(c: u16, numbers: &[u16; 16]) -> u16
    ensures { result ≡ half_by numbers.now c }
{
    (c / 16) ^ numbers[usize::from(c % 16)]
}

// A byte: its low half, and then the other.
#[tactic(auto, unfolding(crate::specs::Halves::byte_by))]
fn byte(c: u16, b: u8, numbers: &[u16; 16]) -> u16
    ensures { result ≡ byte_by numbers.now c b }
{
    let x = c ^ u16::from(b);
    let y = half(x, numbers);
    half(y, numbers)
}

// The CRC of all the bytes, as a number. The sixteen numbers are copied once, here, and lent on.
#[tactic(auto, using(crate::proofs::Halves::by_halves))]
pub fn crc(s: &[u8]) -> u16
    ensures { result ≡ crc_of s.now }
{
    let numbers = sixteen_numbers();
    let c = s.iter().fold(0xFFFF, |c, b| byte(c, *b, &numbers));
    !c
}

// Its two bytes, the low one first, as they follow the bytes in a frame.
#[tactic(auto, unfolding(crate::specs::Crc::crc_bytes))]
pub fn crc_bytes(s: &[u8]) -> [u8; 2]
    ensures { result ≡ crc_bytes s.now }
{
    crc(s).to_le_bytes()
}
