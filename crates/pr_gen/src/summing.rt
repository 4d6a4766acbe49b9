// The summary of a run.
ghost use Rattle.pr_gen.specs.Summary.{count_line, count_of, is_counted, node_count, summary_text, vector_line, words};
ghost use Rattle.pr_gen.specs.declared.counted.Counted.TheVariants.{Writes};
ghost use Rattle.pr_merge.specs.Holding.{HasHistory};
ghost use Rattle.pr_script.specs.declared.kind.Kind.TheVariants as kinds;
ghost use Rattle.pr_story.specs.History.{NodeEntry, current_vector};
ghost use Rattle.std.specs.List.{flat_map, range_with_len};
ghost use Rattle.std.specs.Prelude.{◌≡◌, ◌<◌, ◌≤◌, ◌+◌, ◌^◌, ◌++◌, ℕ, List, OnOk, cond, get_or, length, reverse};

use crate::counted::{Counted, WORDS, span};
use pr_merge::{Held, entry_at};
use pr_script::{Bytes, Decl, Decls, Kind, is_kind};
use pr_stamps::NoMemory;
use pr_story::plain::vector_after;
use pr_story::{Event, Journal};
use pr_text::{ok, push_about, push_number, push_vector};
use pr_vectors::Vector;

/// Adds the summary of a run of these declarations: a line for each kind of event with how many there are, a line for
/// each node with its vector, and `ok N` for N entries (docs/TRANSCRIPT.md). It reads the history once, and then each
/// node's journal.
pub fn summary<H: Held>(decls: &Decls, held: &H, out: &mut Bytes) -> Result<(), NoMemory>
    requires { (h : List NodeEntry) × HasHistory H.Node.journal h (H.state held.now) × (node_count decls.now.list ≤ length (H.state held.now).nodes) × (node_count decls.now.list ≤ 32) }
    ensures { (h : List NodeEntry) → HasHistory H.Node.journal h (H.state held.now) → OnOk result (out.new ≡ out.old ++ summary_text decls.now.list h) }
{
    push_counts(&tally(held), out)?;
    push_vectors(decls, held, out)?;
    ok(held.history().len() as u64, out)
}

// How many entries each word counts, in one pass.
fn tally<H: Held>(held: &H) -> [u64; 16]
    requires { (h : List NodeEntry) × HasHistory H.Node.journal h (H.state held.now) }
    ensures { (h : List NodeEntry) → HasHistory H.Node.journal h (H.state held.now) → (i : ℕ) → i < 16 → get_or result i 0 ≡ count_of h (get_or words i Writes) }
{
    let mut counts = [0; 16];
    for at in 0..held.history().len() {
        let (_, entry) = entry_at(held, at);
        add(&mut counts, &entry.event);
    }
    counts
}

// Counts one event more. Only the words that may count it are asked.
fn add(counts: &mut [u64; 16], event: &Event)
    requires { (i : ℕ) → i < 16 → get_or counts.old i 0 < 2 ^ 63 }
    ensures { (i : ℕ) → i < 16 → get_or counts.new i 0 ≡ get_or counts.old i 0 + cond (is_counted (get_or words i Writes) event.now) 1 0 }
{
    let (from, end) = span(event);
    for at in from..end {
        if WORDS[at].counts(event) {
            counts[at] += 1;
        }
    }
}

// Adds the lines of the counts.
fn push_counts(counts: &[u64; 16], out: &mut Bytes) -> Result<(), NoMemory>
    ensures { (h : List NodeEntry) → ((i : ℕ) → i < 16 → get_or counts.now i 0 ≡ count_of h (get_or words i Writes)) → OnOk result (out.new ≡ out.old ++ flat_map (count_line h) words) }
{
    for at in 0..WORDS.len() {
        push_count(WORDS[at], counts[at], out)?;
    }
    Ok(())
}

fn push_count(word: Counted, count: u64, out: &mut Bytes) -> Result<(), NoMemory>
    ensures { (h : List NodeEntry) → count ≡ count_of h word → OnOk result (out.new ≡ out.old ++ count_line h word) }
{
    out.extend(word.word())?;
    push_number(count, out)?;
    out.push(b'\n')
}

// Adds the lines of the nodes' vectors.
fn push_vectors<H: Held>(decls: &Decls, held: &H, out: &mut Bytes) -> Result<(), NoMemory>
    requires { (h : List NodeEntry) × HasHistory H.Node.journal h (H.state held.now) × (node_count decls.now.list ≤ length (H.state held.now).nodes) × (node_count decls.now.list ≤ 32) }
    ensures { (h : List NodeEntry) → HasHistory H.Node.journal h (H.state held.now) → OnOk result (out.new ≡ out.old ++ flat_map (vector_line decls.now.list h) (range_with_len 0 (node_count decls.now.list))) }
{
    for node in 0..nodes_of(decls.as_slice()) {
        push_node(decls, held, node as u32, out)?;
    }
    Ok(())
}

// How many nodes there are.
fn nodes_of(decls: &[Decl]) -> usize
    ensures { result ≡ node_count decls.now }
{
    let mut nodes = 0;
    for decl in decls {
        if is_kind(Kind::Node, decl) {
            nodes += 1;
        }
    }
    nodes
}

// The vector of the node that did this. One pass.
fn vector_of(journal: &Journal) -> Vector
    ensures { result ≡ current_vector (reverse journal.now.items) }
{
    let mut vector = Vector::zero();
    for place in 0..journal.len() {
        vector = vector_after(journal.entry(place), &vector);
    }
    vector
}

fn push_node<H: Held>(decls: &Decls, held: &H, node: u32, out: &mut Bytes) -> Result<(), NoMemory>
    requires { (h : List NodeEntry) × HasHistory H.Node.journal h (H.state held.now) × (node < length (H.state held.now).nodes) }
    ensures { (h : List NodeEntry) → HasHistory H.Node.journal h (H.state held.now) → OnOk result (out.new ≡ out.old ++ vector_line decls.now.list h node) }
{
    match held.journal(node) {
        None => unreachable!(),
        Some(journal) => {
            push_about(b"vector ", decls, Kind::Node, node, out)?;
            out.push(b' ')?;
            push_vector(decls, &vector_of(journal), out)?;
            out.push(b'\n')
        }
    }
}
