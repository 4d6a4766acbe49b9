ghost use Rattle.std.specs.List.Sorted.{IsStrictlyIncreasing};
ghost use Rattle.std.specs.Prelude.{◌≡◌, All, IfSome, IsTrue, length, sum_by};

use crate::merge;
use pr_stamps::{Roomy, Seq};
use rand_core::utils::NextWord;
use rand_pcg::Pcg32;
use std::alloc::Global;
use std::test::Fail;

// The merged places of parts that are told to rise.
fn merged(alloc: Global, parts: &[Seq<u64>]) -> Result<Roomy<(u32, usize)>, Fail> {
    let mut out = Roomy::new(alloc);
    let total = total(parts).ok_or("too many times")?;
    if parts.len() > 32 || !all_rise(parts) {
        return Err(Fail::from("no parts to merge"));
    }
    out.reserve(total).ok().ok_or("no memory")?;
    merge(parts, &mut out);
    Ok(out)
}

fn total(parts: &[Seq<u64>]) -> Option<usize>
    ensures { IfSome result (λ n. n ≡ sum_by length parts.now) }
{
    let mut total: usize = 0;
    for part in parts {
        total = total.checked_add(part.len())?;
    }
    Some(total)
}

fn all_rise(parts: &[Seq<u64>]) -> bool
    ensures { IsTrue result → All IsStrictlyIncreasing parts.now }
{
    for part in parts {
        if !rises(part.as_slice()) {
            return false;
        }
    }
    true
}

fn rises(times: &[u64]) -> bool
    ensures { IsTrue result → IsStrictlyIncreasing times.now }
{
    for i in 1..times.len() {
        if times[i] <= times[i - 1] {
            return false;
        }
    }
    true
}

// The parts of a table.
fn parts(alloc: Global, table: &[&[u64]]) -> Result<Vec<Seq<u64>>, Fail> {
    let mut parts = Vec::new(alloc);
    for times in table {
        let part = Seq::copied(alloc, times).ok().ok_or("no memory")?;
        parts.push(part)?;
    }
    Ok(parts)
}

// Whether the parts of a table are merged so.
fn gives(alloc: Global, table: &[&[u64]], want: &[(u32, usize)]) -> Result<bool, Fail> {
    let parts = parts(alloc, table)?;
    let out = merged(alloc, parts.as_slice())?;
    Ok(out.as_slice() == want)
}

#[test]
fn equal_times_go_by_part(rt: HostRuntime) -> Result<(), Fail> {
    let table: [&[u64]; 3] = [&[2, 3, 9], &[1, 3], &[3, 4]];
    let want = [(1, 0), (0, 0), (0, 1), (1, 1), (2, 0), (2, 1), (0, 2)];
    assert!(rt; gives(rt.alloc(), &table, &want)?);
    Ok(())
}

#[test]
fn parts_may_be_empty_or_one(rt: HostRuntime) -> Result<(), Fail> {
    assert!(rt; gives(rt.alloc(), &[], &[])?);
    assert!(rt; gives(rt.alloc(), &[&[], &[]], &[])?);
    assert!(rt; gives(rt.alloc(), &[&[5, 6]], &[(0, 0), (0, 1)])?);
    assert!(rt; gives(rt.alloc(), &[&[], &[0], &[]], &[(1, 0)])?);
    Ok(())
}

// Up to six times, of which many are equal to those of other parts.
fn random_part(alloc: Global, words: &mut Pcg32) -> Result<Seq<u64>, Fail> {
    let mut part = Seq::new(alloc);
    let mut time = 0u64;
    for _ in 0..words.next_word() % 7 {
        time = time.wrapping_add(1 + words.next_word() as u64 % 3);
        part.push(time).ok().ok_or("no memory")?;
    }
    Ok(part)
}

fn random_parts(alloc: Global, words: &mut Pcg32, count: u32) -> Result<Vec<Seq<u64>>, Fail> {
    let mut parts = Vec::new(alloc);
    for _ in 0..count {
        parts.push(random_part(alloc, words)?)?;
    }
    Ok(parts)
}

// The places, sorted with their times.
fn sorted(alloc: Global, parts: &[Seq<u64>]) -> Result<Vec<(u64, u32, usize)>, Fail> {
    let mut sorted = Vec::new(alloc);
    let mut number: u32 = 0;
    for part in parts {
        for (place, time) in part.as_slice().iter().enumerate() {
            sorted.push((*time, number, place))?;
        }
        number = number.wrapping_add(1);
    }
    sorted.sort()?;
    Ok(sorted)
}

// Whether the places are those of the sorted ones.
fn are_those(places: &[(u32, usize)], sorted: &[(u64, u32, usize)]) -> bool {
    places.len() == sorted.len()
        && places
            .iter()
            .zip(sorted)
            .all(|(place, (_, number, index))| *place == (*number, *index))
}

// Whether random parts are merged as sorting merges them.
fn merges_as_sorting(alloc: Global, words: &mut Pcg32, count: u32) -> Result<bool, Fail> {
    let parts = random_parts(alloc, words, count)?;
    let out = merged(alloc, parts.as_slice())?;
    let sorted = sorted(alloc, parts.as_slice())?;
    Ok(are_those(out.as_slice(), sorted.as_slice()))
}

#[test]
fn random_parts_are_merged_as_sorting_merges_them(rt: HostRuntime) -> Result<(), Fail> {
    let mut words = Pcg32::new(7, 11);
    for count in 0..33 {
        assert!(rt;
            merges_as_sorting(rt.alloc(), &mut words, count)?,
            "{count} parts"
        );
    }
    Ok(())
}
