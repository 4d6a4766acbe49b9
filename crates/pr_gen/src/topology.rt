// The declarations: eight nodes in a ring, a client at each, and streams both ways between neighbours.
ghost use Rattle.pr_gen.specs.Topology as topology;
ghost use Rattle.pr_names.specs.Text.{all_from, whole};
ghost use Rattle.pr_sets.specs.Text.{list_of};
ghost use Rattle.std.specs.Prelude.{◌≡◌, ◌∷◌, [], ◌++◌, ◌<◌, IfOk, OnOk};

use crate::naming::{front, label};
use pr_names::{Bound, Interval, Name};
use pr_script::{Decl, Decls};
use pr_sets::NameSet;
use pr_stamps::{NoMemory, Seq};
use std::alloc::Global;

const NODES: u8 = 8;

/// All declarations: the nodes, the clients, the streams forth and those back.
#[tactic(auto, unfolding(crate::specs::Topology::declared))]
pub fn declared(alloc: Global) -> Result<Decls, NoMemory>
    ensures { IfOk result (λ ds. ds.list ≡ topology.declared) }
{
    let mut decls = Decls::new(alloc);
    nodes(alloc, &mut decls)?;
    clients(alloc, &mut decls)?;
    streams_forth(alloc, &mut decls)?;
    streams_back(alloc, &mut decls)?;
    Ok(decls)
}

fn nodes(alloc: Global, decls: &mut Decls) -> Result<(), NoMemory>
    ensures { OnOk result (decls.new.list ≡ decls.old.list ++ topology.each 8 topology.node) }
{
    for i in 0..NODES {
        decls.push(node(alloc, i)?)?;
    }
    Ok(())
}

fn clients(alloc: Global, decls: &mut Decls) -> Result<(), NoMemory>
    ensures { OnOk result (decls.new.list ≡ decls.old.list ++ topology.each 8 topology.client) }
{
    for i in 0..NODES {
        decls.push(client(alloc, i)?)?;
    }
    Ok(())
}

fn streams_forth(alloc: Global, decls: &mut Decls) -> Result<(), NoMemory>
    ensures { OnOk result (decls.new.list ≡ decls.old.list ++ topology.each 8 topology.forth) }
{
    for i in 0..NODES {
        decls.push(forth(alloc, i)?)?;
    }
    Ok(())
}

fn streams_back(alloc: Global, decls: &mut Decls) -> Result<(), NoMemory>
    ensures { OnOk result (decls.new.list ≡ decls.old.list ++ topology.each 8 topology.back) }
{
    for i in 0..NODES {
        decls.push(back(alloc, i)?)?;
    }
    Ok(())
}

// ---- one declaration

fn node(alloc: Global, i: u8) -> Result<Decl, NoMemory>
    requires { i < 8 }
    ensures { IfOk result (λ d. d ≡ topology.node i) }
{
    let label = label(alloc, b'N', i)?;
    let mut sets = Seq::new(alloc);
    sets.push(group(alloc, i)?)?;
    sets.push(group(alloc, next(i))?)?;
    Ok(Decl::Node { label, sets })
}

fn client(alloc: Global, i: u8) -> Result<Decl, NoMemory>
    requires { i < 8 }
    ensures { IfOk result (λ d. d ≡ topology.client i) }
{
    let label = label(alloc, b'C', i)?;
    let node = u32::from(i);
    Ok(Decl::Client { label, node })
}

fn forth(alloc: Global, i: u8) -> Result<Decl, NoMemory>
    requires { i < 8 }
    ensures { IfOk result (λ d. d ≡ topology.forth i) }
{
    Ok(Decl::Stream {
        label: label(alloc, b'S', i)?,
        source: u32::from(i),
        dest: u32::from(next(i)),
        sub: groups(alloc, next(i), next(next(i)))?,
        bodies: true,
    })
}

fn back(alloc: Global, i: u8) -> Result<Decl, NoMemory>
    requires { i < 8 }
    ensures { IfOk result (λ d. d ≡ topology.back i) }
{
    Ok(Decl::Stream {
        label: label(alloc, b'T', i)?,
        source: u32::from(next(i)),
        dest: u32::from(i),
        sub: everything(alloc)?,
        bodies: false,
    })
}

// The node behind this one.
fn next(i: u8) -> u8
    requires { i < 8 }
    ensures value { result ≡ topology.next i }
    ensures range { result < 8 }
{
    (i + 1) % NODES
}

// ---- sets

// The names that begin with a letter and a slash.
fn group(alloc: Global, letter: u8) -> Result<NameSet, NoMemory>
    requires { letter < 8 }
    ensures { IfOk result (λ s. s ≡ topology.group letter) }
{
    let front = front(letter);
    match Interval::new(front, front.after_all()) {
        Some(part) => NameSet::of(alloc, part),
        None => unreachable!(),
    }
}

// The names of two letters.
fn groups(alloc: Global, a: u8, b: u8) -> Result<NameSet, NoMemory>
    requires a { a < 8 }
    requires b { b < 8 }
    ensures { IfOk result (λ s. s ≡ list_of (topology.group a ++ topology.group b)) }
{
    let first = group(alloc, a)?;
    let second = group(alloc, b)?;
    first.union(alloc, &second)
}

fn everything(alloc: Global) -> Result<NameSet, NoMemory>
    ensures { IfOk result (λ s. s ≡ whole ∷ []) }
{
    match Interval::new(Name::least(), Bound::End) {
        Some(part) => NameSet::of(alloc, part),
        None => unreachable!(),
    }
}
