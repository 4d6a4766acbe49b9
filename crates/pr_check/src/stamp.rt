// Stamps.
ghost use Rattle.pr_check.specs.Parts.{point_read, prev_read, stamp_read, stamp_with};
ghost use Rattle.pr_script.specs.Labels.{AreLabels};
ghost use Rattle.pr_stamps.specs.Point.{IsStamp};
ghost use Rattle.pr_story.specs.Counts.{HasPrev, HasStamp};
ghost use Rattle.pr_story.specs.Ranges.{IsStampOrNone};
ghost use Rattle.pr_text.specs.Numbers.{nodes_of};
ghost use Rattle.std.specs.Prelude.{◌≡◌, IfSome};

use crate::part::{cut, is_hyphen, number};
use pr_script::{Decl, Kind, number_within};
use pr_stamps::{MAX, Stamp};

#[tactic(auto, unfolding(crate::specs::Parts::stamp_with))]
fn stamp_with(clock: u64, node: u32) -> Option<Stamp>
    ensures reads { result ≡ stamp_with clock node }
    ensures node { IfSome result (λ p. p.node ≡ node) }
{
    Stamp::new(clock, node)
}

/// The stamp of a clock's digits and a node's label.
#[tactic(auto, unfolding(crate::specs::Parts::point_read))]
pub fn point(decls: &[Decl], clock: &[u8], label: &[u8]) -> Option<Stamp>
    requires { AreLabels decls.now }
    ensures reads { result ≡ point_read decls.now clock.now label.now }
    ensures range { IfSome result IsStamp }
    ensures declared { IfSome result (HasStamp (nodes_of decls.now)) }
{
    let clock = number_within(1, MAX, clock)?;
    let node = number(decls, Kind::Node, label)?;
    let stamp = stamp_with(clock, node)?;
    let _ = stamp.clock();
    Some(stamp)
}

/// CLOCK@LABEL.
#[tactic(auto, unfolding(crate::specs::Parts::stamp_read))]
pub fn stamp(decls: &[Decl], bytes: &[u8]) -> Option<Stamp>
    requires { AreLabels decls.now }
    ensures reads { result ≡ stamp_read decls.now bytes.now }
    ensures range { IfSome result IsStamp }
    ensures declared { IfSome result (HasStamp (nodes_of decls.now)) }
{
    let (clock, label) = cut(b'@', bytes);
    point(decls, clock, label)
}

/// A stamp, or a hyphen.
#[tactic(auto, unfolding(crate::specs::Parts::prev_read))]
pub fn prev(decls: &[Decl], bytes: &[u8]) -> Option<Option<Stamp>>
    requires { AreLabels decls.now }
    ensures reads { result ≡ prev_read decls.now bytes.now }
    ensures range { IfSome result IsStampOrNone }
    ensures declared { IfSome result (HasPrev (nodes_of decls.now)) }
{
    if is_hyphen(bytes) {
        return Some(None);
    }
    let stamp = stamp(decls, bytes)?;
    Some(Some(stamp))
}
