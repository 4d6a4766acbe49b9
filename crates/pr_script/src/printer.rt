// Printing scripts.
#![tactic(auto, using(crate::proofs::Beginnings::grown))]

ghost use Rattle.pr_script.specs.Printing.{Begins, bodies_text, command_lines, command_text, decl_lines, decl_text, label_field, quoted, script_text, want_text};
ghost use Rattle.pr_script.specs.Reading.{ended};
ghost use Rattle.std.specs.List.{flat_map};
ghost use Rattle.pr_script.specs.declared.kind.Kind.TheVariants as kinds;
ghost use Rattle.std.specs.Prelude.{◌≡◌, ◌∷◌, ◌++◌, [], OnErr, OnOk, codes, decimal};

use crate::kind::Kind;
use crate::labels::label_at;
use crate::spelling::{counted, field, one, print_text, set_field, sets_fields, two};
use crate::{Bytes, Command, Decl, Script, Want};
use pr_names::Name;
use pr_stamps::NoMemory;

/// Adds the script's text: a line for each declaration and each command, with one space between two fields and each set
/// as its one list. What is printed of an accepted script is read as the same script but for the numbers of lines. After
/// a refusal a part of the text may stand behind what `out` had. Each label is looked up among the declarations, and all
/// else is linear in the text.
pub fn print(script: &Script, out: &mut Bytes) -> Result<(), NoMemory>
    ensures ok { OnOk result (out.new ≡ out.old ++ script_text script.now) }
    ensures err { OnErr result (Begins out.old out.new) }
{
    let decls = script.decls.as_slice();
    print_decls(decls, out)?;
    print_commands(decls, script.commands.as_slice(), out)
}

/// Adds the declarations' lines, as `print` does.
pub fn print_decls(decls: &[Decl], out: &mut Bytes) -> Result<(), NoMemory>
    ensures ok { OnOk result (out.new ≡ out.old ++ flat_map ended (decl_lines [] decls.now)) }
    ensures err { OnErr result (Begins out.old out.new) }
{
    for i in 0..decls.len() {
        print_decl(&decls[..i], &decls[i], out)?;
    }
    Ok(())
}

fn print_commands(
    decls: &[Decl],
    commands: &[(u64, Command)],
    out: &mut Bytes,
) -> Result<(), NoMemory>
    ensures ok { OnOk result (out.new ≡ out.old ++ flat_map ended (command_lines decls.now commands.now)) }
    ensures err { OnErr result (Begins out.old out.new) }
{
    for command in commands {
        print_command(decls, &command.1, out)?;
        out.push(b'\n')?;
    }
    Ok(())
}

// The line of a declaration, behind those before it.
#[tactic(auto, using(crate::proofs::Beginnings::grown), unfolding(crate::specs::Printing::decl_text))]
fn print_decl(front: &[Decl], decl: &Decl, out: &mut Bytes) -> Result<(), NoMemory>
    ensures ok { OnOk result (out.new ≡ out.old ++ ended (decl_text front.now decl.now)) }
    ensures err { OnErr result (Begins out.old out.new) }
{
    decl_fields(front, decl, out)?;
    out.push(b'\n')
}

#[tactic(auto, using(crate::proofs::Beginnings::grown), unfolding(crate::specs::Printing::decl_text))]
fn decl_fields(front: &[Decl], decl: &Decl, out: &mut Bytes) -> Result<(), NoMemory>
    ensures ok { OnOk result (out.new ≡ out.old ++ decl_text front.now decl.now) }
    ensures err { OnErr result (Begins out.old out.new) }
{
    match decl {
        Decl::Node { label, sets } => {
            one(out, b"node", label.as_slice())?;
            sets_fields(out, sets.as_slice())
        }
        Decl::Client { label, node } => {
            let node = label_at(front, Kind::Node, *node);
            two(out, b"client", label.as_slice(), node)
        }
        Decl::Stream {
            label,
            source,
            dest,
            sub,
            bodies,
        } => {
            let source = label_at(front, Kind::Node, *source);
            let dest = label_at(front, Kind::Node, *dest);
            two(out, b"stream", label.as_slice(), source)?;
            field(out, dest)?;
            set_field(out, sub)?;
            bodies_field(out, *bodies)
        }
    }
}

fn bodies_field(out: &mut Bytes, bodies: bool) -> Result<(), NoMemory>
    ensures ok { OnOk result (out.new ≡ out.old ++ bodies_text bodies) }
    ensures err { OnErr result (Begins out.old out.new) }
{
    if bodies {
        return out.extend(b" bodies");
    }
    Ok(())
}

#[tactic(auto, using(crate::proofs::Beginnings::grown), unfolding(crate::specs::Printing::command_text))]
fn print_command(decls: &[Decl], command: &Command, out: &mut Bytes) -> Result<(), NoMemory>
    ensures ok { OnOk result (out.new ≡ out.old ++ command_text decls.now command.now) }
    ensures err { OnErr result (Begins out.old out.new) }
{
    match command {
        Command::Attach { stream } => at_stream(b"attach", decls, *stream, out),
        Command::Detach { stream } => at_stream(b"detach", decls, *stream, out),
        Command::Send { stream } => at_stream(b"send", decls, *stream, out),
        Command::Checkpoint { stream } => at_stream(b"checkpoint", decls, *stream, out),
        Command::Deliver { stream, number } => times(b"deliver", decls, *stream, *number, out),
        Command::Flow { stream, turns } => times(b"flow", decls, *stream, *turns, out),
        Command::Write { client, name, body } => write(decls, *client, name, body, out),
        Command::Delete { client, name } => of_client(b"delete", decls, *client, name, out),
        Command::Read { client, name } => of_client(b"read", decls, *client, name, out),
        Command::Move { client, node } => moved(decls, *client, *node, out),
        Command::Expect { want } => expected(out, want),
        Command::Cut { node } => at_node(b"cut", decls, *node, out),
        Command::State { node } => at_node(b"state", decls, *node, out),
        Command::Drop { node, name } => of_node(b"drop", decls, *node, name, out),
        Command::Conflicts { node, name } => of_node(b"conflicts", decls, *node, name, out),
        Command::Settle => out.extend(b"settle"),
        Command::Phase => out.extend(b"phase"),
        Command::End => out.extend(b"end"),
    }
}

// A word and a stream.
fn at_stream(word: &[u8], decls: &[Decl], stream: u32, out: &mut Bytes) -> Result<(), NoMemory>
    ensures ok { OnOk result (out.new ≡ out.old ++ (word.now ++ label_field kinds.Stream decls.now stream)) }
    ensures err { OnErr result (Begins out.old out.new) }
{
    one(out, word, label_at(decls, Kind::Stream, stream))
}

// A word, a stream and a number.
fn times(
    word: &[u8],
    decls: &[Decl],
    stream: u32,
    number: u64,
    out: &mut Bytes,
) -> Result<(), NoMemory>
    ensures ok { OnOk result (out.new ≡ out.old ++ (word.now ++ (label_field kinds.Stream decls.now stream ++ (32 ∷ decimal number)))) }
    ensures err { OnErr result (Begins out.old out.new) }
{
    counted(out, word, label_at(decls, Kind::Stream, stream), number)
}

fn write(
    decls: &[Decl],
    client: u32,
    name: &Name,
    body: &Bytes,
    out: &mut Bytes,
) -> Result<(), NoMemory>
    ensures ok { OnOk result (out.new ≡ out.old ++ (codes "write" ++ (label_field kinds.Client decls.now client ++ (32 ∷ (name.now ++ (32 ∷ quoted body.now)))))) }
    ensures err { OnErr result (Begins out.old out.new) }
{
    of_client(b"write", decls, client, name, out)?;
    print_text(out, body.as_slice())
}

// A word, a client and a name.
fn of_client(
    word: &[u8],
    decls: &[Decl],
    client: u32,
    name: &Name,
    out: &mut Bytes,
) -> Result<(), NoMemory>
    ensures ok { OnOk result (out.new ≡ out.old ++ (word.now ++ (label_field kinds.Client decls.now client ++ (32 ∷ name.now)))) }
    ensures err { OnErr result (Begins out.old out.new) }
{
    two(
        out,
        word,
        label_at(decls, Kind::Client, client),
        name.bytes(),
    )
}

fn moved(decls: &[Decl], client: u32, node: u32, out: &mut Bytes) -> Result<(), NoMemory>
    ensures ok { OnOk result (out.new ≡ out.old ++ (codes "move" ++ (label_field kinds.Client decls.now client ++ label_field kinds.Node decls.now node))) }
    ensures err { OnErr result (Begins out.old out.new) }
{
    let client = label_at(decls, Kind::Client, client);
    two(out, b"move", client, label_at(decls, Kind::Node, node))
}

// A word and a node.
fn at_node(word: &[u8], decls: &[Decl], node: u32, out: &mut Bytes) -> Result<(), NoMemory>
    ensures ok { OnOk result (out.new ≡ out.old ++ (word.now ++ label_field kinds.Node decls.now node)) }
    ensures err { OnErr result (Begins out.old out.new) }
{
    one(out, word, label_at(decls, Kind::Node, node))
}

// A word, a node and a name.
fn of_node(
    word: &[u8],
    decls: &[Decl],
    node: u32,
    name: &Name,
    out: &mut Bytes,
) -> Result<(), NoMemory>
    ensures ok { OnOk result (out.new ≡ out.old ++ (word.now ++ (label_field kinds.Node decls.now node ++ (32 ∷ name.now)))) }
    ensures err { OnErr result (Begins out.old out.new) }
{
    two(out, word, label_at(decls, Kind::Node, node), name.bytes())
}

#[tactic(auto, using(crate::proofs::Beginnings::grown), unfolding(crate::specs::Printing::want_text))]
fn expected(out: &mut Bytes, want: &Want) -> Result<(), NoMemory>
    ensures ok { OnOk result (out.new ≡ out.old ++ (codes "expect" ++ (32 ∷ want_text want.now))) }
    ensures err { OnErr result (Begins out.old out.new) }
{
    match want {
        Want::Value(text) => {
            out.extend(b"expect value")?;
            print_text(out, text.as_slice())
        }
        Want::Never => out.extend(b"expect never"),
        Want::Imprecise => out.extend(b"expect imprecise"),
        Want::Body => out.extend(b"expect body"),
        Want::Gone => out.extend(b"expect gone"),
        Want::Behind => out.extend(b"expect behind"),
    }
}
