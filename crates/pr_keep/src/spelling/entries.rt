// Events, and entries with their nodes.
ghost use Rattle.pr_inval.specs.Messages.{IsMessage};
ghost use Rattle.pr_keep.specs.Entries.{HasMessage, IsAnyWrite, IsCounted, IsCountedList, IsEvent, IsFound, IsFramed, IsReply, IsSpelled};
ghost use Rattle.pr_keep.specs.Spelling.{cause_text, counted_text, entry_text, event_byte, event_fields, event_text, found_text, reply_text};
ghost use Rattle.pr_names.specs.Name.{IsName};
ghost use Rattle.pr_vectors.specs.Vector.{IsVector};
ghost use Rattle.pr_wire.specs.Spelling.{eight, four, list_text, name_text, spelling, vector_text, write_text};
ghost use Rattle.pr_wire.specs.declared.format.Format.TheVariants.{Two};
ghost use Rattle.std.specs.Prelude.{◌≡◌, ◌<◌, ◌++◌, ◌∷◌, OnOk};

use crate::spelling::fields::{append_counted, append_packed, append_write};
use crate::spelling::parts::{append_cause, append_found, append_reply, append_vectors};
use pr_inval::{Bytes, Msg, WriteRec};
use pr_names::Name;
use pr_stamps::NoMemory;
use pr_story::{Cause, Entry, Event, Found, Reply};
use pr_vectors::{PackedVector, Vector};
use pr_wire::{append_eight, append_four, append_name, encode};

/// Adds an entry with its node, in time linear in what is added. After a refusal a beginning of it was added.
#[tactic(auto, unfolding(crate::specs::Spelling::entry_text))]
pub fn append_entry(node: u32, entry: &Entry, out: &mut Bytes) -> Result<(), NoMemory>
    requires node { node < 32 }
    requires message { HasMessage entry.now.event }
    ensures text { OnOk result (out.new ≡ out.old ++ entry_text (node, entry.now)) }
    ensures range { OnOk result (IsSpelled (node, entry.now)) }
{
    out.push(node as u8)?;
    append_eight(entry.time, out)?;
    append_four(entry.caller, out)?;
    append_event(&entry.event, out)
}

fn event_byte(event: &Event) -> u8
    ensures { result ≡ event_byte event.now }
{
    match event {
        Event::Wrote { .. } => 1,
        Event::Attached { .. } => 2,
        Event::Sent { .. } => 3,
        Event::Idle { .. } => 4,
        Event::Stale { .. } => 5,
        Event::Accepted { .. } => 6,
        Event::Gapped { .. } => 7,
        Event::Missing { .. } => 8,
        Event::Down { .. } => 9,
        Event::Answered { .. } => 10,
        Event::Cut { .. } => 11,
        Event::Dropped { .. } => 12,
        Event::Conflicts { .. } => 13,
        Event::State { .. } => 14,
        Event::Moved { .. } => 15,
        Event::Behind { .. } => 16,
    }
}

// The kind and the fields of an event.
#[tactic(auto, unfolding(crate::specs::Spelling::event_text))]
fn append_event(event: &Event, out: &mut Bytes) -> Result<(), NoMemory>
    requires { HasMessage event.now }
    ensures text { OnOk result (out.new ≡ out.old ++ event_text event.now) }
    ensures range { OnOk result (IsEvent event.now) }
{
    out.push(event_byte(event))?;
    append_fields(event, out)
}

// The fields of an event.
#[tactic(auto, unfolding(crate::specs::Spelling::event_fields))]
fn append_fields(event: &Event, out: &mut Bytes) -> Result<(), NoMemory>
    requires { HasMessage event.now }
    ensures text { OnOk result (out.new ≡ out.old ++ event_fields event.now) }
    ensures range { OnOk result (IsEvent event.now) }
{
    match event {
        Event::Wrote {
            client,
            write,
            body,
            after,
        } => append_wrote(*client, write, body, after, out),
        Event::Attached { stream, at } => append_at(*stream, at, out),
        Event::Sent { msg } => append_message(msg, out),
        Event::Idle { stream } => append_four(*stream, out),
        Event::Stale { stream, cut } => append_at(*stream, cut, out),
        Event::Accepted { msg, at } => append_taken(msg, at, out),
        Event::Gapped { msg, has } => append_taken(msg, has, out),
        Event::Missing { stream, number } => append_missing(*stream, *number, out),
        Event::Down { stream, cause } => append_down(*stream, *cause, out),
        Event::Answered {
            client,
            name,
            reply,
            at,
        } => append_answered(*client, name, reply, at, out),
        Event::Behind { client, needs, has } => append_behind(*client, needs, has, out),
        Event::Moved { client } => append_four(*client, out),
        Event::Cut { at } => append_packed(at, out),
        Event::Dropped { name } => append_known_name(name, out),
        Event::Conflicts { name, found } => append_conflicts(name, found, out),
        Event::State {
            at,
            cut,
            floor,
            precise,
        } => append_state(at, cut, floor, precise.as_slice(), out),
    }
}

fn append_known_name(name: &Name, out: &mut Bytes) -> Result<(), NoMemory>
    ensures text { OnOk result (out.new ≡ out.old ++ name_text name.now) }
    ensures range { IsName name.now }
{
    let _ = name.bytes();
    append_name(name, out)
}

fn append_message(msg: &Msg, out: &mut Bytes) -> Result<(), NoMemory>
    requires { IsMessage msg.now }
    ensures text { OnOk result (out.new ≡ out.old ++ spelling Two msg.now) }
    ensures range { OnOk result (IsFramed msg.now) }
{
    encode(msg, out)?;
    let _ = out.len();
    Ok(())
}

fn append_at(stream: u32, vector: &PackedVector, out: &mut Bytes) -> Result<(), NoMemory>
    ensures text { OnOk result (out.new ≡ out.old ++ (four stream ++ vector_text vector.now)) }
    ensures range { OnOk result (IsVector vector.now) }
{
    append_four(stream, out)?;
    append_packed(vector, out)
}

fn append_taken(msg: &Msg, vector: &PackedVector, out: &mut Bytes) -> Result<(), NoMemory>
    requires { IsMessage msg.now }
    ensures text { OnOk result (out.new ≡ out.old ++ (spelling Two msg.now ++ vector_text vector.now)) }
    ensures range { OnOk result (IsFramed msg.now × IsVector vector.now) }
{
    append_message(msg, out)?;
    append_packed(vector, out)
}

fn append_missing(stream: u32, number: u64, out: &mut Bytes) -> Result<(), NoMemory>
    ensures { OnOk result (out.new ≡ out.old ++ (four stream ++ eight number)) }
{
    append_four(stream, out)?;
    append_eight(number, out)
}

fn append_down(stream: u32, cause: Cause, out: &mut Bytes) -> Result<(), NoMemory>
    ensures { OnOk result (out.new ≡ out.old ++ (four stream ++ cause_text cause)) }
{
    append_four(stream, out)?;
    append_cause(cause, out)
}

fn append_wrote(
    client: u32,
    write: &WriteRec,
    body: &Bytes,
    after: &PackedVector,
    out: &mut Bytes,
) -> Result<(), NoMemory>
    ensures text { OnOk result (out.new ≡ out.old ++ (four client ++ (write_text Two write.now ++ (counted_text body.now ++ vector_text after.now)))) }
    ensures range { OnOk result (IsAnyWrite write.now × IsCounted body.now × IsVector after.now) }
{
    append_four(client, out)?;
    append_write(write, out)?;
    append_counted(body, out)?;
    append_packed(after, out)
}

fn append_answered(
    client: u32,
    name: &Name,
    reply: &Reply,
    at: &PackedVector,
    out: &mut Bytes,
) -> Result<(), NoMemory>
    ensures text { OnOk result (out.new ≡ out.old ++ (four client ++ (name_text name.now ++ (reply_text reply.now ++ vector_text at.now)))) }
    ensures range { OnOk result (IsName name.now × IsReply reply.now × IsVector at.now) }
{
    append_four(client, out)?;
    append_known_name(name, out)?;
    append_reply(reply, out)?;
    append_packed(at, out)
}

fn append_behind(
    client: u32,
    needs: &PackedVector,
    has: &PackedVector,
    out: &mut Bytes,
) -> Result<(), NoMemory>
    ensures text { OnOk result (out.new ≡ out.old ++ (four client ++ (vector_text needs.now ++ vector_text has.now))) }
    ensures range { OnOk result (IsVector needs.now × IsVector has.now) }
{
    append_four(client, out)?;
    append_packed(needs, out)?;
    append_packed(has, out)
}

fn append_conflicts(name: &Name, found: &Found, out: &mut Bytes) -> Result<(), NoMemory>
    ensures text { OnOk result (out.new ≡ out.old ++ (name_text name.now ++ found_text found.now)) }
    ensures range { OnOk result (IsName name.now × IsFound found.now) }
{
    append_known_name(name, out)?;
    append_found(found, out)
}

fn append_state(
    at: &PackedVector,
    cut: &PackedVector,
    floor: &PackedVector,
    precise: &[Vector],
    out: &mut Bytes,
) -> Result<(), NoMemory>
    ensures text { OnOk result (out.new ≡ out.old ++ (vector_text at.now ++ (vector_text cut.now ++ (vector_text floor.now ++ list_text vector_text precise.now)))) }
    ensures range { OnOk result (IsVector at.now × IsVector cut.now × IsVector floor.now × IsCountedList IsVector precise.now) }
{
    append_packed(at, out)?;
    append_packed(cut, out)?;
    append_packed(floor, out)?;
    append_vectors(precise, out)
}
