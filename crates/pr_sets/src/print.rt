// Printing sets.
ghost use Rattle.pr_names.specs.Text.{interval_text, end_text, bound_text, is_whole, same_bound};
ghost use Rattle.pr_sets.specs.Text.{AddsFront, set_text, more_text};
ghost use Rattle.std.specs.Prelude.{◌≡◌, ◌++◌, OnOk, OnErr};

use pr_names::{Bound, Interval, Name};
use pr_stamps::{NoMemory, Seq};

/// Adds the text of the set.
pub fn print(parts: &[Interval], out: &mut Seq<u8>) -> Result<(), NoMemory>
    ensures ok { OnOk result (out.new ≡ out.old ++ set_text parts.now) }
    ensures err { OnErr result (AddsFront out.old out.new (set_text parts.now)) }
{
    if parts.is_empty() {
        return add(out, b"~");
    }
    print_interval(&parts[0], out)?;
    print_more(&parts[1..], out)
}

// Adds a comma and its text for each interval.
fn print_more(parts: &[Interval], out: &mut Seq<u8>) -> Result<(), NoMemory>
    ensures ok { OnOk result (out.new ≡ out.old ++ more_text parts.now) }
    ensures err { OnErr result (AddsFront out.old out.new (more_text parts.now)) }
{
    for part in parts {
        add(out, b",")?;
        print_interval(part, out)?;
    }
    Ok(())
}

// Adds the text of the interval.
#[tactic(auto, unfolding(pr_names::specs::Text::interval_text))]
fn print_interval(part: &Interval, out: &mut Seq<u8>) -> Result<(), NoMemory>
    ensures ok { OnOk result (out.new ≡ out.old ++ interval_text part.now) }
    ensures err { OnErr result (AddsFront out.old out.new (interval_text part.now)) }
{
    if is_whole(part) {
        return add(out, b"*");
    }
    add(out, part.lo().bytes())?;
    print_end(part, out)
}

// Adds what stands behind the interval's first name.
#[tactic(auto, unfolding(pr_names::specs::Text::end_text))]
fn print_end(part: &Interval, out: &mut Seq<u8>) -> Result<(), NoMemory>
    ensures ok { OnOk result (out.new ≡ out.old ++ end_text part.now) }
    ensures err { OnErr result (AddsFront out.old out.new (end_text part.now)) }
{
    let hi = part.hi();
    if are_same(&hi, &part.lo().after()) {
        return Ok(());
    }
    if are_same(&hi, &part.lo().after_all()) {
        return add(out, b"*");
    }
    add(out, b":")?;
    push_bound(&hi, out)
}

fn push_bound(bound: &Bound, out: &mut Seq<u8>) -> Result<(), NoMemory>
    ensures ok { OnOk result (out.new ≡ out.old ++ bound_text bound.now) }
    ensures err { OnErr result (AddsFront out.old out.new (bound_text bound.now)) }
{
    match bound {
        Bound::At(name) => add(out, name.bytes()),
        Bound::End => add(out, b"~"),
    }
}

fn is_whole(part: &Interval) -> bool
    ensures { result ≡ is_whole part.now }
{
    are_same(&Bound::At(part.lo()), &Bound::At(Name::least())) && are_same(&part.hi(), &Bound::End)
}

fn are_same(bound: &Bound, other: &Bound) -> bool
    ensures { result ≡ same_bound bound.now other.now }
{
    bound == other
}

// Adds the bytes, or nothing.
fn add(out: &mut Seq<u8>, bytes: &[u8]) -> Result<(), NoMemory>
    ensures ok { OnOk result (out.new ≡ out.old ++ bytes.now) }
    ensures err { OnErr result (AddsFront out.old out.new bytes.now) }
{
    out.extend(bytes)
}
