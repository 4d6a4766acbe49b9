// What is asked for.
ghost use Rattle.std.specs.Prelude.{◌≤◌};

use crate::work::Work;

/// How many calls or rounds of one kind are made, over how many names, of which how many nodes write.
#[derive(Drop)]
pub struct Ask {
    pub work: Work,
    pub size: u32,
    pub names: u32,
    pub writers: u32,
    ghost some_names: { 1 ≤ names },
    ghost some_writers: { 1 ≤ writers },
    ghost few_writers: { writers ≤ 31 },
}

impl Ask {
    /// The words `KIND SIZE NAMES WRITERS`: at least one name, and 1 to 31 writers.
    pub fn of(words: &[String]) -> Option<Ask> {
        let [work, size, names, writers] = words else {
            return None;
        };
        Ask::new(
            Work::of(work.as_str())?,
            number(size)?,
            number(names)?,
            number(writers)?,
        )
    }

    fn new(work: Work, size: u32, names: u32, writers: u32) -> Option<Ask> {
        if names == 0 {
            return None;
        }
        if writers == 0 {
            return None;
        }
        if writers > 31 {
            return None;
        }
        Some(Ask {
            work,
            size,
            names,
            writers,
        })
    }
}

fn number(word: &String) -> Option<u32> {
    word.as_str().parse::<u32>().ok()
}
