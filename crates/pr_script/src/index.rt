// Labels in the order of declaration.
ghost use Rattle.indexmap.specs.IndexSet.{spare};
ghost use Rattle.pr_script.specs.Packed.{packed};
ghost use Rattle.std.specs.List.{list_any, position};
ghost use Rattle.std.specs.Prelude.{◌≡◌, ◌≤◌, ◌<◌, [], ◌∷◌, ◌++◌, IfSome, OnOk, false, length, nat_eq};

use indexmap::IndexSet;
use pr_stamps::NoMemory;

/// A label's bytes as one number, by which it is looked up.
pub fn packed(label: &[u8]) -> u128
    requires { length label.now ≤ 16 }
    ensures { result ≡ packed label.now }
{
    let mut n: u128 = 0;
    let mut i = label.len();
    while i > 0 {
        i -= 1;
        n = n * 256 + label[i] as u128;
    }
    n
}

/// The place of the key.
pub fn place(keys: &IndexSet<u128>, key: u128) -> Option<usize>
    ensures place { result ≡ position (nat_eq key) keys.now.keys }
    ensures within { IfSome result (λ i. i < length keys.now.keys) }
{
    keys.get_index_of(&key)
}

/// Makes room for one key more.
pub fn room(keys: &mut IndexSet<u128>) -> Result<(), NoMemory>
    ensures keys { keys.new.keys ≡ keys.old.keys }
    ensures room { OnOk result (0 < spare keys.new) }
{
    match keys.reserve(1) {
        Ok(()) => Ok(()),
        Err(_) => Err(NoMemory),
    }
}

/// Adds a new key, for which there is room.
pub fn put(keys: &mut IndexSet<u128>, key: u128)
    requires room { 0 < spare keys.old }
    requires new { list_any (nat_eq key) keys.old.keys ≡ false }
    ensures { keys.new.keys ≡ keys.old.keys ++ key ∷ [] }
{
    let _ = keys.insert_full(key);
}
