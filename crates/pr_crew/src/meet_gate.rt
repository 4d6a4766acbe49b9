// A gate at which lines meet.
ghost use Rattle.pr_crew.specs.Lines.{AreSet, IsMarked, bits_of, count_set};
ghost use Rattle.std.specs.Prelude.{◌≡◌, ◌≤◌, ◌↔◌, Contains, IsTrue, if◌then◌else◌, length};

use crate::Gate;
use crate::looks::is_seen;
use std::marker::Model;
use std::sync::Wait;
use std::sync::atomic::{AtomicBool, AtomicU64, Ordering};

/// Lets no call with one of its lines go on before all of its lines were reached, or so many looks were made. Any
/// other call returns at once.
///
/// What its calls find in memory that threads share is told by no clause: that they wait for each other, and what
/// `gave_up` and `lines_met` answer then, is tested.
#[derive(Drop)]
pub struct MeetGate {
    lines: Vec<u64>,
    looks: u64,
    // Bit k is set once line k was reached.
    reached: AtomicU64,
    gave_up: AtomicBool,
}

impl Model for MeetGate {
    ghost use Rattle.std.specs.Prelude.{◌≤◌, length};
    ghost use Rattle.pr_crew.specs.Lines.{Meeting};

    ghost Value = { Meeting };

    ghost view = { λ g. record { lines = g.lines.items; looks = g.looks } };

    ghost invariant = { λ g. length g.lines.items ≤ 64 };
}

impl MeetGate {
    /// A gate for these lines, none of which was reached. A line that stands twice is reached twice by one call.
    pub fn new(lines: Vec<u64>, looks: u64) -> MeetGate
        requires { length lines.items ≤ 64 }
        ensures { result ≡ record { lines = lines.items; looks = looks } }
    {
        MeetGate {
            lines,
            looks,
            reached: AtomicU64::new(0),
            gave_up: AtomicBool::new(false),
        }
    }

    /// How many of its lines were reached.
    pub fn lines_met(&self) -> usize
        ensures { result ≤ length self.now.lines }
    {
        set_bits(self.reached.load(Ordering::SeqCst), self.lines.len())
    }

    /// Whether a call returned by its looks, with a line not reached.
    pub fn gave_up(&self) -> bool {
        self.gave_up.load(Ordering::SeqCst)
    }

    // Whether all of its lines were reached.
    fn all_met(&self) -> bool {
        are_set(self.reached.load(Ordering::SeqCst), self.lines.len())
    }
}

impl Gate for MeetGate {
    fn reached<R: Wait>(&self, _rt: &R, line: u64) {
        let bits = bits(self.lines.as_slice(), line);
        if bits == 0 {
            return;
        }
        self.reached.fetch_or(bits, Ordering::SeqCst);
        if self.all_met() || is_seen(self.looks, || self.all_met()) {
            return;
        }
        self.gave_up.store(true, Ordering::SeqCst);
    }
}

// The bits of a line.
fn bits(lines: &[u64], line: u64) -> u64
    requires { length lines.now ≤ 64 }
    ensures value { result ≡ bits_of lines.now line }
    ensures marked { IsMarked lines.now line result }
    ensures absent { result ≡ 0 ↔ ¬ Contains lines.now line }
{
    let mut bits = 0;
    for k in (0..lines.len()).rev() {
        let own = bit(lines[k] == line);
        bits = 2 * bits + own;
    }
    bits
}

// A bit that is set, or not.
fn bit(set: bool) -> u64
    ensures { result ≡ (if set then 1 else 0) }
{
    u64::from(set)
}

// Whether all of the first bits of a word are set.
fn are_set(word: u64, count: usize) -> bool
    requires { count ≤ 64 }
    ensures { IsTrue result ↔ AreSet word count }
{
    set_bits(word, count) == count
}

// How many of the first bits of a word are set.
fn set_bits(word: u64, count: usize) -> usize
    requires { count ≤ 64 }
    ensures value { result ≡ count_set word count }
    ensures within { result ≤ count }
{
    let mut set = 0;
    for k in 0..count {
        if (word >> k) % 2 == 1 {
            set += 1;
        }
    }
    set
}
