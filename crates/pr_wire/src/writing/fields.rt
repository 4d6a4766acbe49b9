// Names, stamps and what is made of them.
ghost use Rattle.pr_wire.specs.Spelling.{bound_text, gone_text, mark_text, name_text, prev_text, span_text, stamp_text, write_text};
ghost use Rattle.pr_wire.specs.declared.format.Format.{Format};
ghost use Rattle.std.specs.Prelude.{◌≡◌, ◌≤◌, ◌+◌, ◌++◌, length};

use crate::writing::chunk::{Chunk, put, put_byte, put_eight};
use pr_inval::WriteRec;
use pr_names::{Bound, Interval, Name};
use pr_stamps::{Mark, Stamp};

#[tactic(auto, unfolding(crate::specs::Spelling::name_text))]
pub fn put_name(chunk: &mut Chunk, name: &Name)
    requires { length chunk.old.items + 65 ≤ 704 }
    ensures text { chunk.new.items ≡ chunk.old.items ++ name_text name.now }
    ensures size { length chunk.new.items ≤ length chunk.old.items + 65 }
    ensures some { length chunk.old.items + 1 ≤ length chunk.new.items }
{
    let bytes = name.bytes();
    put_byte(chunk, bytes.len() as u8);
    put(chunk, bytes);
}

#[tactic(auto, unfolding(crate::specs::Spelling::stamp_text))]
pub fn put_stamp(chunk: &mut Chunk, stamp: &Stamp)
    requires { length chunk.old.items + 9 ≤ 704 }
    ensures text { chunk.new.items ≡ chunk.old.items ++ stamp_text stamp.now }
    ensures size { length chunk.new.items ≡ length chunk.old.items + 9 }
{
    put_eight(chunk, stamp.clock());
    put_byte(chunk, stamp.node() as u8);
}

#[tactic(auto, unfolding(crate::specs::Spelling::prev_text))]
fn put_prev(chunk: &mut Chunk, prev: &Option<Stamp>)
    requires { length chunk.old.items + 10 ≤ 704 }
    ensures text { chunk.new.items ≡ chunk.old.items ++ prev_text prev.now }
    ensures size { length chunk.new.items ≤ length chunk.old.items + 10 }
    ensures some { length chunk.old.items + 1 ≤ length chunk.new.items }
{
    match prev {
        None => put_byte(chunk, 0),
        Some(stamp) => {
            put_byte(chunk, 1);
            put_stamp(chunk, stamp);
        }
    }
}

#[tactic(auto, unfolding(crate::specs::Spelling::bound_text))]
fn put_bound(chunk: &mut Chunk, bound: &Bound)
    requires { length chunk.old.items + 65 ≤ 704 }
    ensures text { chunk.new.items ≡ chunk.old.items ++ bound_text bound.now }
    ensures size { length chunk.new.items ≤ length chunk.old.items + 65 }
    ensures some { length chunk.old.items + 1 ≤ length chunk.new.items }
{
    match bound {
        Bound::At(name) => put_name(chunk, name),
        Bound::End => put_byte(chunk, 0),
    }
}

#[tactic(auto, unfolding(crate::specs::Spelling::span_text))]
pub fn put_span(chunk: &mut Chunk, span: &Interval)
    requires { length chunk.old.items + 130 ≤ 704 }
    ensures text { chunk.new.items ≡ chunk.old.items ++ span_text span.now }
    ensures size { length chunk.new.items ≤ length chunk.old.items + 130 }
    ensures some { length chunk.old.items + 1 ≤ length chunk.new.items }
{
    put_name(chunk, &span.lo());
    put_bound(chunk, &span.hi());
}

#[tactic(auto, unfolding(crate::specs::Spelling::gone_text))]
pub fn put_gone(chunk: &mut Chunk, gone: bool)
    requires { length chunk.old.items + 1 ≤ 704 }
    ensures text { chunk.new.items ≡ chunk.old.items ++ gone_text Format.Two gone }
    ensures size { length chunk.new.items ≡ length chunk.old.items + 1 }
{
    put_byte(chunk, u8::from(gone));
}

#[tactic(auto, unfolding(crate::specs::Spelling::mark_text))]
pub fn put_mark(chunk: &mut Chunk, mark: &Mark)
    requires { length chunk.old.items + 19 ≤ 704 }
    ensures text { chunk.new.items ≡ chunk.old.items ++ mark_text mark.now }
    ensures size { length chunk.new.items ≤ length chunk.old.items + 19 }
    ensures some { length chunk.old.items + 1 ≤ length chunk.new.items }
{
    put_stamp(chunk, &mark.stamp);
    put_prev(chunk, &mark.prev);
}

#[tactic(auto, unfolding(crate::specs::Spelling::write_text))]
pub fn put_write(chunk: &mut Chunk, write: &WriteRec)
    requires { length chunk.old.items + 85 ≤ 704 }
    ensures text { chunk.new.items ≡ chunk.old.items ++ write_text Format.Two write.now }
    ensures size { length chunk.new.items ≤ length chunk.old.items + 85 }
    ensures grows { length chunk.old.items ≤ length chunk.new.items }
{
    put_name(chunk, &write.name);
    put_stamp(chunk, &write.stamp);
    put_prev(chunk, &write.prev);
    put_gone(chunk, write.gone);
}
