// The events of clients.
ghost use Rattle.pr_text.specs.Lines.{sentence};
ghost use Rattle.pr_story.specs.declared.event.Event.TheVariants as events;
ghost use Rattle.std.specs.Prelude.{◌≡◌, ◌++◌, OnOk, codes, cond};

use crate::answer::push_reply;
use crate::field::{push_at, push_name, push_over};
use crate::label::{push_about, push_label};
use crate::stock::Stock;
use pr_inval::WriteRec;
use pr_names::Name;
use pr_script::{Bytes, Decls, Kind, print_text};
use pr_stamps::NoMemory;
use pr_story::Reply;
use pr_vectors::PackedVector;

/// A client's write or delete was accepted.
pub fn push_wrote(
    stock: &Stock,
    client: u32,
    write: &WriteRec,
    body: &[u8],
    after: &PackedVector,
    text: &mut Bytes,
) -> Result<(), NoMemory>
    ensures { OnOk result (text.new ≡ text.old ++ sentence stock.now.list 0 (events.Wrote client write.now body.now after.now)) }
{
    push_about(
        write_word(write.gone),
        stock.decls(),
        Kind::Client,
        client,
        text,
    )?;
    push_name(&write.name, text)?;
    if !write.gone {
        print_text(text, body)?;
    }
    push_over(stock.decls(), write, text)?;
    push_at(b" after ", stock, after, text)
}

fn write_word(gone: bool) -> &'static [u8]
    ensures { result.now ≡ cond gone (codes "delete ") (codes "write ") }
{
    if gone { b"delete " } else { b"write " }
}

/// A client's read was answered.
pub fn push_answered(
    stock: &Stock,
    client: u32,
    name: &Name,
    reply: &Reply,
    at: &PackedVector,
    text: &mut Bytes,
) -> Result<(), NoMemory>
    ensures { OnOk result (text.new ≡ text.old ++ sentence stock.now.list 0 (events.Answered client name.now reply.now at.now)) }
{
    push_about(b"read ", stock.decls(), Kind::Client, client, text)?;
    push_name(name, text)?;
    push_reply(stock.decls(), reply, text)?;
    push_at(b" at ", stock, at, text)
}

/// The client has seen more than its node covers.
pub fn push_behind(
    stock: &Stock,
    client: u32,
    needs: &PackedVector,
    has: &PackedVector,
    text: &mut Bytes,
) -> Result<(), NoMemory>
    ensures { OnOk result (text.new ≡ text.old ++ sentence stock.now.list 0 (events.Behind client needs.now has.now)) }
{
    push_about(b"behind ", stock.decls(), Kind::Client, client, text)?;
    push_at(b" needs ", stock, needs, text)?;
    push_at(b" has ", stock, has, text)
}

/// The client came to the node.
pub fn push_moved(decls: &Decls, node: u32, client: u32, text: &mut Bytes) -> Result<(), NoMemory>
    ensures { OnOk result (text.new ≡ text.old ++ sentence decls.now.list node (events.Moved client)) }
{
    push_about(b"move ", decls, Kind::Client, client, text)?;
    push_label(decls, Kind::Node, node, text)
}
