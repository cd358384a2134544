// "The bench holds one tag record, and each event updates that record": the record is lent by `&mut`, the step of `host` is taken on it by
// value, and the next record is stored in its place. Memory and room are lent one by one, as `host` takes them. Any record, any bytes and any buffers are
// taken, as by `host`.
#![tactic(auto)]

ghost use Rattle.tag.specs.Step.{event_of};
ghost use Rattle.tag.specs.Host.{event_given, EventGives};
ghost use Rattle.bench.specs.Updates.{Updates};

use record::{Kind, Outcome, Refusal, Tag};

// "each event updates that record"
pub fn on_event(
    tag: &mut Tag,
    kind: Kind,
    frame: &[u8],
    memory: &mut [u8],
    room: &mut [u8],
) -> Result<usize, Refusal>
    ensures { Updates (event_given tag.old (event_of kind frame.now) memory.old
        room.old) tag.new memory.new room.new result }
{
    let o = host::event(*tag, kind, frame, memory, room)?;
    *tag = o.tag;
    Ok(o.length)
}

// The same by value: the record is lent to `on_event` and given back. A caller of this one holds no reference to a record.
pub fn through(
    mut tag: Tag,
    kind: Kind,
    frame: &[u8],
    memory: &mut [u8],
    room: &mut [u8],
) -> Result<Outcome, Refusal>
    ensures { EventGives tag (event_of kind frame.now) memory.old room.old
        memory.new room.new result }
{
    let length = on_event(&mut tag, kind, frame, memory, room)?;
    Ok(Outcome { length, tag })
}
