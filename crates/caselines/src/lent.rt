// What is lent as memory and as room, and how a line changes it.
ghost use Rattle.std.specs.Prelude.{option_map};
ghost use Rattle.caselines.specs.Form.{asked};
ghost use Rattle.caselines.specs.Lent.{Lends};

use super::form::Form;

// How many bytes are lent as memory and as room: the first of the buffers that hold them.
#[derive(Clone, Copy)]
pub struct Lent {
    pub memory: usize,
    pub room: usize,
}

// "lends n (0 to 9,000) bytes of 0 as memory", "lends n (0 to 11,000) bytes of EEh as room": the whole buffer is filled.
pub fn lend(form: Option<Form<'_>>, lent: Lent, memory: &mut [u8], room: &mut [u8]) -> Lent
    ensures { Lends (option_map asked form.entry) lent memory.old room.old memory.new room.new result }
{
    match form {
        Some(Form::Memory(n)) => {
            memory.fill(0);
            Lent { memory: n, ..lent }
        }
        Some(Form::Room(n)) => {
            room.fill(0xEE);
            Lent { room: n, ..lent }
        }
        _ => lent,
    }
}
