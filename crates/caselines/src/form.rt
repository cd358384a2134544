// What a line asks for.
ghost use Rattle.std.specs.Prelude.{◌≡◌, ℕ, ◌≤◌, MatchOption, IfSome, Some, None, option_map};
ghost use Rattle.caselines.specs.Limits.{memory_most};
ghost use Rattle.caselines.specs.Form.{asked, Fits, number_from, number_in, is_hex, record_form, request_form, load_form, factory_form};
ghost use Rattle.caselines.specs.Form.{space_in, number_and_digits, bytes_form, search_form, hex_form, number_form, form_of};

use super::limits::{ENTRIES, FRAME, IMAGE, MEMORY, ROOM, UID, UIDS};
use packed::RECORD;
use record::Kind;

// Two digits a byte.
const RECORD_DIGITS: usize = 2 * RECORD;

const FRAME_DIGITS: usize = 2 * FRAME;

const IMAGE_DIGITS: usize = 2 * IMAGE;

const UID_DIGITS: usize = 2 * UID;

const UIDS_DIGITS: usize = 2 * UIDS;

// The lines of the table, each with the number that it names and the digits that end it.
#[derive(Clone, Copy)]
pub enum Form<'a> {
    Memory(usize),
    Room(usize),
    Save(usize),
    Record(&'a [u8]),
    Load(&'a [u8]),
    Factory(&'a [u8]),
    Bytes { at: usize, digits: &'a [u8] },
    Event { kind: Kind, digits: &'a [u8] },
    Search { entries: usize, digits: &'a [u8] },
}

#[tactic(auto, using(crate::proofs::Figures::figures))]
fn number_from(figures: &[u8], most: usize) -> Option<usize>
    requires { most ≤ 0xFFFFFFFF }
    ensures value { result ≡ number_from most 0 figures.now }
    ensures within { IfSome result (λ n. n ≤ most) }
{
    let mut n = 0;
    for &figure in figures {
        if !text::is_figure(figure) {
            return None;
        }
        n = 10 * n + usize::from(figure - b'0');
        if most < n {
            return None;
        }
    }
    Some(n)
}

// "Numbers have no leading zero."
#[tactic(auto, unfolding(crate::specs::Form::number_in))]
fn number_in(s: &[u8], most: usize) -> Option<usize>
    requires { most ≤ 0xFFFFFFFF }
    ensures value { result ≡ number_in most s.now }
    ensures within { IfSome result (λ n. n ≤ most) }
{
    match s {
        [] | [b'0', _, ..] => None,
        _ => number_from(s, most),
    }
}

fn is_hex(s: &[u8], most: usize) -> bool
    ensures { result ≡ is_hex most s.now }
{
    s.len() % 2 == 0 && s.len() <= most && text::all_digits(s)
}

// What ends each line of hex, a function a line as the definition has one: they differ in the form they make and in what is a right length.
fn record_form(s: &[u8]) -> Option<Form<'_>>
    ensures value { option_map asked result ≡ record_form s.now }
    ensures fits { (memory : ℕ) → IfSome result (λ f. Fits memory (asked f)) }
{
    (s.len() == RECORD_DIGITS && is_hex(s, RECORD_DIGITS)).then_some(Form::Record(s))
}

fn request_form(s: &[u8]) -> Option<Form<'_>>
    ensures value { option_map asked result ≡ request_form s.now }
    ensures fits { (memory : ℕ) → IfSome result (λ f. Fits memory (asked f)) }
{
    is_hex(s, FRAME_DIGITS).then_some(Form::Event {
        kind: Kind::Request,
        digits: s,
    })
}

fn load_form(s: &[u8]) -> Option<Form<'_>>
    ensures value { option_map asked result ≡ load_form s.now }
    ensures fits { (memory : ℕ) → IfSome result (λ f. Fits memory (asked f)) }
{
    is_hex(s, IMAGE_DIGITS).then_some(Form::Load(s))
}

fn factory_form(s: &[u8]) -> Option<Form<'_>>
    ensures value { option_map asked result ≡ factory_form s.now }
    ensures fits { (memory : ℕ) → IfSome result (λ f. Fits memory (asked f)) }
{
    (s.len() == UID_DIGITS && is_hex(s, UID_DIGITS)).then_some(Form::Factory(s))
}

fn space_in(s: &[u8]) -> Option<usize>
    ensures { result ≡ space_in s.now }
{
    s.iter().position(|b| *b == b' ')
}

// A number of its range, and what follows the space after it.
#[tactic(auto, unfolding(crate::specs::Form::number_and_digits))]
fn number_and_digits(s: &[u8], most: usize) -> Option<(usize, &[u8])>
    requires { most ≤ 0xFFFFFFFF }
    ensures value { MatchOption result (number_and_digits most s.now ≡ None)
        (λ p. number_and_digits most s.now ≡ Some (p.0, p.1.now)) }
    ensures within { IfSome result (λ p. p.0 ≤ most) }
{
    let space = space_in(s)?;
    let number = number_in(&s[..space], most)?;
    Some((number, &s[space + 1..]))
}

// The bound of the memory is the public `form_of`'s, handed down to this function, as those of numbers are to the ones above.
#[tactic(auto, unfolding(crate::specs::Form::bytes_form))]
fn bytes_form(s: &[u8], memory: usize) -> Option<Form<'_>>
    requires { memory ≤ memory_most }
    ensures value { option_map asked result ≡ bytes_form memory s.now }
    ensures fits { IfSome result (λ f. Fits memory (asked f)) }
{
    let (at, digits) = number_and_digits(s, memory)?;
    is_hex(digits, 2 * (memory - at)).then_some(Form::Bytes { at, digits })
}

#[tactic(auto, unfolding(crate::specs::Form::search_form))]
fn search_form(s: &[u8]) -> Option<Form<'_>>
    ensures value { option_map asked result ≡ search_form s.now }
    ensures fits { (memory : ℕ) → IfSome result (λ f. Fits memory (asked f)) }
{
    let (entries, digits) = number_and_digits(s, ENTRIES)?;
    let is_list = digits.len() % UID_DIGITS == 0 && is_hex(digits, UIDS_DIGITS);
    is_list.then_some(Form::Search { entries, digits })
}

#[tactic(auto, unfolding(crate::specs::Form::hex_form))]
fn hex_form(line: &[u8], memory: usize) -> Option<Form<'_>>
    requires { memory ≤ memory_most }
    ensures value { option_map asked result ≡ hex_form memory line.now }
    ensures fits { IfSome result (λ f. Fits memory (asked f)) }
{
    if let Some(s) = line.strip_prefix(b"REC ") {
        return record_form(s);
    }
    if let Some(s) = line.strip_prefix(b"PUT ") {
        return bytes_form(s, memory);
    }
    if let Some(s) = line.strip_prefix(b"REQ ") {
        return request_form(s);
    }
    if let Some(s) = line.strip_prefix(b"LOAD ") {
        return load_form(s);
    }
    if let Some(s) = line.strip_prefix(b"FACTORY ") {
        return factory_form(s);
    }
    if let Some(s) = line.strip_prefix(b"SEARCH ") {
        return search_form(s);
    }
    None
}

#[tactic(auto, unfolding(crate::specs::Form::number_form))]
fn number_form(line: &[u8], memory: usize) -> Option<Form<'_>>
    requires { memory ≤ memory_most }
    ensures value { option_map asked result ≡ number_form memory line.now }
    ensures fits { IfSome result (λ f. Fits memory (asked f)) }
{
    if let Some(s) = line.strip_prefix(b"MEM ") {
        return Some(Form::Memory(number_in(s, MEMORY)?));
    }
    if let Some(s) = line.strip_prefix(b"ROOM ") {
        return Some(Form::Room(number_in(s, ROOM)?));
    }
    if let Some(s) = line.strip_prefix(b"SAVE ") {
        return Some(Form::Save(number_in(s, IMAGE)?));
    }
    hex_form(line, memory)
}

// A line, beside a memory of so many bytes.
#[tactic(auto, unfolding(crate::specs::Form::form_of))]
pub fn form_of(line: &[u8], memory: usize) -> Option<Form<'_>>
    requires { memory ≤ memory_most }
    ensures value { option_map asked result ≡ form_of memory line.now }
    ensures fits { IfSome result (λ f. Fits memory (asked f)) }
{
    let kind = match line {
        b"ON" => Kind::FieldOn,
        b"OFF" => Kind::FieldOff,
        b"EOF" => Kind::EndOfFrame,
        _ => return number_form(line, memory),
    };
    Some(Form::Event { kind, digits: &[] })
}
