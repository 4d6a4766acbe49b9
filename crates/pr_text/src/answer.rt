// The fields of what a node answers.
ghost use Rattle.pr_text.specs.Lines.{found_fields, reply_fields};
ghost use Rattle.pr_text.specs.Texts.{more};
ghost use Rattle.std.specs.Prelude.{◌≡◌, ◌++◌, OnOk};

use crate::field::{push_stamp_field, push_word};
use crate::rows::push_pairs;
use pr_script::{Bytes, Decls, print_text};
use pr_stamps::NoMemory;
use pr_story::{Found, Reply};

/// Adds the answer to a read.
pub fn push_reply(decls: &Decls, reply: &Reply, text: &mut Bytes) -> Result<(), NoMemory>
    ensures { OnOk result (text.new ≡ text.old ++ more 32 (reply_fields decls.now.list reply.now)) }
{
    match reply {
        Reply::Never => push_word(b"never", text),
        Reply::Value { stamp, bytes } => {
            push_word(b"value", text)?;
            push_stamp_field(decls, stamp, text)?;
            print_text(text, bytes.as_slice())
        }
        Reply::Imprecise { untold } => {
            push_word(b"imprecise", text)?;
            push_stamp_field(decls, untold, text)
        }
        Reply::Body { stamp } => {
            push_word(b"body", text)?;
            push_stamp_field(decls, stamp, text)
        }
        Reply::Gone { stamp } => {
            push_word(b"gone", text)?;
            push_stamp_field(decls, stamp, text)
        }
    }
}

/// Adds the conflicts of a name.
pub fn push_found(decls: &Decls, found: &Found, text: &mut Bytes) -> Result<(), NoMemory>
    ensures { OnOk result (text.new ≡ text.old ++ more 32 (found_fields decls.now.list found.now)) }
{
    match found {
        Found::Pairs(pairs) => {
            text.push(b' ')?;
            push_pairs(decls, pairs.as_slice(), text)
        }
        Found::Imprecise { untold } => {
            push_word(b"imprecise", text)?;
            push_stamp_field(decls, untold, text)
        }
    }
}
