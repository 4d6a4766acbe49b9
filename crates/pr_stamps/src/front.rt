// The front of a list.
ghost use Rattle.std.specs.Prelude.{◌≡◌, ◌≤◌, drop, length};

/// Takes so many items off the front, in time linear in the items, and none in constant time, without taking memory.
pub fn drop_front<T: Copy + Drop>(items: &mut Vec<T>, count: usize)
    requires { count ≤ length items.old.items }
    ensures { items.new.items ≡ drop count items.old.items }
{
    if count == 0 {
        return;
    }
    let left = items.len() - count;
    items.copy_within(count.., 0);
    items.truncate(left);
}
